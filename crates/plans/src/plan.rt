// A plan: the names of its atoms and its rules, over one bank.
ghost use Rattle.std.specs.Prelude.{◌≤◌, vec_len, vec_capacity};
ghost use Rattle.arrayvec.specs.ArrayVec.{array_vec_len};

use arrayvec::ArrayVec;
use rules::FitRule;

pub mod calls;
mod edits;
mod entry;
mod names;
mod store;

/// The most atoms and the most rules that a plan has.
pub const MAX_ATOMS: usize = 32;

pub const MAX_RULES: usize = 64;

/// An atom's name, to its last byte.
#[derive(Drop)]
struct Name {
    text: ArrayVec<u8, 16>,
    ghost some: { 1 ≤ array_vec_len text },
    ghost short: { array_vec_len text ≤ 16 },
}

/// The names of the atoms, in the order of naming, and the rules, in their places. Room for all of them is reserved
/// when the table is made.
// No set or map of names: it would allocate in a call, and no call of a plan may.
#[derive(Drop)]
struct Table {
    names: Vec<Name>,
    rules: Vec<FitRule>,
    ghost few_names: { vec_len names ≤ 32 },
    ghost few_rules: { vec_len rules ≤ 64 },
    ghost name_room: { 32 ≤ vec_capacity names },
    ghost rule_room: { 64 ≤ vec_capacity rules },
}

/// A plan over a bank, which all its calls use. No call of a plan that is made allocates.
// No `Model`: its value would be the names and rules with the bank beside, and clauses say these apart: what a call leaves
// of the one, and that it leaves the other, a clause for each.
#[derive(Drop)]
pub struct Plan<B> {
    bank: B,
    table: Table,
}
