// The grades of a line, one for each place where dust escapes: 0 absent, 1 good, 2 middle, 3 poor.
ghost use Rattle.std.specs.Prelude.{◌≡◌};
ghost use Rattle.fugitive.specs.Grades.{is_given, grades_bad};

pub const MOST_GRADE: usize = 3;

// The medium and the pollutant of fugitive dust.
pub const GAS: usize = 2;

pub const PARTICULATES: usize = 3;

#[derive(Clone, Copy)]
pub struct Grades {
    pub crushing: usize,
    pub tapping: usize,
    pub spill: usize,
}

impl Grades {
    // Whether a grade is given at any place.
    #[tactic(auto, unfolding(crate::specs::Grades::is_given))]
    pub fn is_given(self) -> bool
        ensures { result ≡ is_given self }
    {
        (self.crushing != 0) | (self.tapping != 0) | (self.spill != 0)
    }

    // Rule 15: a grade that there is not, or any grade on a sheet of another medium or pollutant.
    #[tactic(auto, unfolding(crate::specs::Grades::grades_bad))]
    pub fn is_bad(self, medium: usize, pollutant: usize) -> bool
        ensures { result ≡ grades_bad self medium pollutant }
    {
        let above = (MOST_GRADE < self.crushing)
            | (MOST_GRADE < self.tapping)
            | (MOST_GRADE < self.spill);
        let other = (medium != GAS) | (pollutant != PARTICULATES);
        above | (self.is_given() & other)
    }
}
