// Eight bytes of the input or of the output as a number, the lowest first.
ghost use Rattle.std.specs.Prelude.{◌≡◌, ◌+◌, ◌-◌, ◌≤◌, length};
ghost use Rattle.std.proofs.lemmas.List.Edits.{sets};
ghost use Rattle.sizes.specs.Basics.{le, undigit};
ghost use Rattle.cases.specs.Steps as spec;

// Eight bytes as a number. (No loop: the compiler then reads them at once.)
pub fn eight_bytes(input: &[u8], i: usize) -> u64
    requires { 8 ≤ length input.now - i }
    ensures { result ≡ undigit (spec.eight_at input.now i) }
{
    u64::from_le_bytes([
        input[i],
        input[i + 1],
        input[i + 2],
        input[i + 3],
        input[i + 4],
        input[i + 5],
        input[i + 6],
        input[i + 7],
    ])
}

// Eight bytes, the lowest first.
pub fn put(output: &mut [u8], at: usize, x: u64)
    requires { at + 8 ≤ length output.old }
    ensures { output.new ≡ sets output.old at (le 8 x) }
{
    output[at..at + 8].copy_from_slice(&x.to_le_bytes());
}
