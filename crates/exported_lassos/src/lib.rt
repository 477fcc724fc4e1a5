// What C and Rust are told of a rule's lassos and marks: each call's answer, packed into one number.
#![tactic(auto)]

ghost use Rattle.std.specs.Prelude.{◌≡◌};
ghost use Rattle.promises.specs.Classes.{ListPromise};
ghost use Rattle.promises.specs.Complement.{ComplementPromise};
ghost use Rattle.promises.specs.Inclusion.{InclusionPromise};
ghost use Rattle.promises.specs.Inspect.{InspectPromise};
ghost use Rattle.promises.specs.Member.{MemberPromise};
ghost use Rattle.promises.specs.Stretch.{stretch_numbers};
ghost use Rattle.promises.specs.Strong.{StrongPromise};
ghost use Rattle.packing_counts.specs.Counts.{inspected_contents, listed_contents, written_contents, pack_stretch};
ghost use Rattle.packing_decisions.specs.Decisions.{strength_contents, lasso_verdict_contents, inclusion_contents};
ghost use Rattle.packing.specs.Exports.{Exported};

use packing_counts::{pack_inspected, pack_listed, pack_stretch, pack_written};
use packing_decisions::{pack_inclusion, pack_lasso_verdict, pack_strength};

// The elements, the letters and the marks of a rule file.
pub fn inspect(rule: &[u8], scratch: &mut [u8]) -> u64
    ensures { Exported (InspectPromise rule.now scratch.old scratch.new) inspected_contents result }
{
    pack_inspected(rules::inspect(rule, scratch))
}

// The linked pairs, the classes and the joins; each pair's class in `out`.
pub fn classes(rule: &[u8], out: &mut [u8], scratch: &mut [u8]) -> u64
    ensures { Exported (ListPromise rule.now out.old out.new scratch.old scratch.new) listed_contents result }
{
    pack_listed(rules::list_classes(rule, out, scratch))
}

// 1 for a strong rule, 0 for a weak one.
pub fn strong(rule: &[u8], scratch: &mut [u8]) -> u64
    ensures { Exported (StrongPromise rule.now scratch.old scratch.new) strength_contents result }
{
    pack_strength(rules::strong(rule, scratch))
}

// The lasso's grade, 0 to 3, and how many turns settle the value of v.
pub fn member(rule: &[u8], u: &[u8], v: &[u8], scratch: &mut [u8]) -> u64
    ensures { Exported (MemberPromise rule.now u.now v.now scratch.old scratch.new) lasso_verdict_contents result }
{
    pack_lasso_verdict(rules::member(rule, u, v, scratch))
}

// How many bytes the complement has, which stands in `out`.
pub fn complement(rule: &[u8], out: &mut [u8], scratch: &mut [u8]) -> u64
    ensures { Exported (ComplementPromise rule.now out.old out.new scratch.old scratch.new) written_contents result }
{
    pack_written(rules::complement(rule, out, scratch))
}

// 1 for an inclusion; else 0 and how many letters the lasso has in u and in v.
pub fn included(rule: &[u8], second: &[u8], u: &mut [u8], v: &mut [u8], scratch: &mut [u8]) -> u64
    ensures { Exported (InclusionPromise rule.now second.now u.old u.new v.old v.new scratch.old scratch.new) inclusion_contents result }
{
    pack_inclusion(rules::included(rule, second, u, v, scratch))
}

// The part of a lasso's word that is left to read at a position: 1 where it lies in u or 2 in v, where it begins there, and how many letters it has.
pub fn stretch(u: &[u8], v: &[u8], position: usize) -> u64
    ensures { result ≡ pack_stretch (stretch_numbers u.now v.now position) }
{
    pack_stretch(rules::stretch_place(u, v, position))
}
