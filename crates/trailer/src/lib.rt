// The trailer of a table, written after its records.
#![tactic(auto)]

ghost use Rattle.std.specs.Prelude.{◌+◌, ◌≤◌, ◌<◌};
ghost use Rattle.fault.specs.Bytes.{trailer_bytes};
ghost use Rattle.layout.specs.Layout.{types_in};
ghost use Rattle.table.specs.Facts.{CountsFit};
ghost use Rattle.ink.specs.Ink.{places, Put};
ghost use Rattle.trailer.specs.Trailer.{trailer_for};

// At n, by the counts and the types byte; and the place after it.
pub fn put(
    out: &mut [u8],
    n: usize,
    states: usize,
    rules: usize,
    byte: usize,
    factor: usize,
) -> usize
    requires { (CountsFit states rules (types_in byte) factor) × (byte < 256) × (n + trailer_bytes ≤ places) }
    ensures { Put out.old n (trailer_for states rules byte factor) result out.new }
{
    let of_rules = fault::times(rules, layout::rule_bytes(byte));
    let all = table::STATE_BYTES * states + of_rules;
    let trailer = [
        fault::low(all),
        fault::high(all),
        fault::low(of_rules),
        fault::high(of_rules),
        fault::low(states),
        fault::low(rules),
        fault::low(byte),
        fault::low(factor),
    ];
    ink::put_all(out, n, &trailer)
}
