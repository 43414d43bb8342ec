// Lent cells.
ghost use Rattle.std.specs.Prelude.{◌≡◌, length, replicate};

// Every cell becomes 0, of whichever type of number; of no cells, none. (`fill` wants a clone that cannot fail, which a bound does not say.)
pub fn clear<T: Copy + Default>(cells: &mut [T])
    ensures { (zero : T) → ((x : T) → T.is_default x → x ≡ zero) → cells.new ≡ replicate (length cells.old) zero }
{
    for i in 0..cells.len() {
        cells[i] = T::default();
    }
}
