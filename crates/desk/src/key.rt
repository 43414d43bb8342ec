// The seven fields by which a row of the book is found, and by which the rows rise; the entries of the fugitive table have the first five.
ghost use Rattle.std.specs.Prelude.{◌≡◌};
ghost use Rattle.search.specs.InnerOrder.{list_order};
ghost use Rattle.desk.specs.Inner.{CodesIn, at_scale, code_fields, codes_at};
ghost use Rattle.desk.specs.Key.{key_from};

use super::inside::u16_in;
use std::cmp::Ordering;

// Scale 0 stands for all scales.
pub const ALL_SCALES: usize = 0;

// The medium that waste water goes into, where a part of it may be used again.
pub const WATER: usize = 1;

#[derive(Clone, Copy)]
pub struct Key {
    pub industry: usize,
    pub product: usize,
    pub material: usize,
    pub process: usize,
    pub scale: usize,
    pub medium: usize,
    pub pollutant: usize,
}

// Rows, lines and entries begin with the same five codes.
#[tactic(auto, unfolding(crate::specs::Key::key_from))]
pub(crate) fn key_from(s: &[u8], at: usize, medium: usize, pollutant: usize) -> Key
    requires { CodesIn s.now at }
    ensures { result ≡ key_from s.now at medium pollutant }
{
    Key {
        industry: u16_in(s, at, 0),
        product: u16_in(s, at, 2),
        material: u16_in(s, at, 4),
        process: u16_in(s, at, 6),
        scale: u16_in(s, at, 8),
        medium,
        pollutant,
    }
}

// How the five codes at `at` stand to those of this key with this scale. They are compared where they are, one after the other, and nothing
// is read past the first that differs. A chain of `then_with` was tried: accounting by a full book took a fifth longer.
pub(crate) fn codes_order(s: &[u8], at: usize, k: Key, scale: usize) -> Ordering
    requires { CodesIn s.now at }
    ensures { result ≡ list_order (codes_at s.now at) (code_fields (at_scale k scale)) }
{
    let industry = u16_in(s, at, 0);
    if industry != k.industry {
        return industry.cmp(&k.industry);
    }
    let product = u16_in(s, at, 2);
    if product != k.product {
        return product.cmp(&k.product);
    }
    let material = u16_in(s, at, 4);
    if material != k.material {
        return material.cmp(&k.material);
    }
    let process = u16_in(s, at, 6);
    if process != k.process {
        return process.cmp(&k.process);
    }
    u16_in(s, at, 8).cmp(&scale)
}
