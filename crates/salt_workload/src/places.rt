//! Where the lines of a workload stand.

ghost use Rattle.std.specs.Prelude.{◌≡◌, ◌+◌, ◌*◌, ◌<◌, ◌≤◌};
ghost use Rattle.salt_values.specs.declared.limits.TheConstants.{CALLS_MOST};
ghost use Rattle.salt_workload.specs.Places.{lines_through};

/// How many lines the calls up to this one are, with what follows them.
pub fn lines_through(call: u64) -> u64
    requires { call ≤ 2 * CALLS_MOST }
    ensures { result ≡ lines_through call }
{
    call + call / 8 + 3 * (call / 50)
}

/// How many calls are over, with what follows them, before this line behind the opening.
///
/// Any 200 calls in a row have 237 lines. By this share the calls are counted, and at most four too few, since the first of
/// them have less than their share of what follows calls.
pub fn calls_over(at: u64) -> u64
    requires { at < 2 * CALLS_MOST }
    ensures over { lines_through result ≤ at }
    ensures not_over { at < lines_through (result + 1) }
{
    let mut calls = at * 200 / 237;
    for _ in 0..4u64 {
        if lines_through(calls + 1) <= at {
            calls += 1;
        }
    }
    calls
}
