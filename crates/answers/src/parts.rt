//! Part of a list.

ghost use Rattle.std.specs.Prelude.{◌≡◌, ◌≤◌};
ghost use Rattle.answers.specs.Private.Steps.{end_in, first_in};

/// The index of the first element that is asked for, in a list of this length; `length` where that is after the list's end.
pub(crate) fn first_in(start: u32, length: usize) -> usize
    ensures first { result ≡ first_in start length }
    ensures within { result ≤ length }
{
    (start as usize).min(length)
}

/// The index after the last element that is asked for, where at most `count` are asked for from the first on; all where there is no
/// count, or it is 0.
pub(crate) fn end_in(first: usize, count: Option<u32>, length: usize) -> usize
    requires { first ≤ length }
    ensures end { result ≡ end_in first count length }
    ensures low { first ≤ result }
    ensures high { result ≤ length }
{
    match count {
        None | Some(0) => length,
        Some(count) => {
            if (count as usize) < length - first {
                first + count as usize
            } else {
                length
            }
        }
    }
}
