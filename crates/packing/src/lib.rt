// Three fields of a result, or a refusal, packed into one number of 64 bits, as specs/Packing says.
#![tactic(auto)]

ghost use Rattle.std.specs.Prelude.{◌≡◌};
ghost use Rattle.answer.specs.Refusals.{number_of};
ghost use Rattle.packing.specs.Packing.{pack_refusal, pack_fields};

use answer::{Refusal, number};

pub fn pack_refusal(refusal: Refusal, input: usize, place: usize) -> u64
    ensures { result ≡ pack_refusal (number_of refusal) input place }
{
    let number = number(refusal) as u64;
    let input_byte = input as u64 % 256;
    let place_bits = place as u64 % 281474976710656;
    number + (256 * input_byte + 65536 * place_bits)
}

pub fn pack_fields(a: usize, b: usize, c: usize) -> u64
    ensures { result ≡ pack_fields a b c }
{
    let first = a as u64 % 65536;
    let second = b as u64 % 65536;
    let third = c as u64 % 65536;
    65536 * first + (4294967296 * second + 281474976710656 * third)
}
