//! The first field that is at fault.
ghost use Rattle.std.specs.Prelude.{◌≡◌, ◌+◌, ◌<◌, ◌^◌, IfSome, length};
ghost use Rattle.quic_results.specs.Faults.{first_false};

/// The index of the first test that fails, of tests of which the first has this index; `None` if all hold.
pub fn first_false(index: usize, tests: &[bool]) -> Option<usize>
    requires { index + length tests.now < 2 ^ 32 }
    ensures found { result ≡ first_false index tests.now }
    ensures few { IfSome result (λ found. found < 2 ^ 32) }
{
    let (holds, others) = tests.split_first()?;
    if *holds {
        first_false(index + 1, others)
    } else {
        Some(index)
    }
}
