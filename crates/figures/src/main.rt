// The paper's figures, worked and printed: those of the amounts first, then runs of the desk over the folders of data/, then
// tables that are settled step by step.
#![tactic(auto)]

mod runs;
mod settled;
mod worked;

fn main(rt: HostRuntime) {
    worked::readings(&rt);
    worked::scalings(&rt);
    worked::lines(&rt);
    runs::runs(&rt);
    runs::limit_runs(&rt);
    runs::fugitive_runs(&rt);
    runs::own_runs(&rt);
    runs::bundle_runs(&rt);
    runs::typed_runs(&rt);
    settled::settlings(&rt);
}
