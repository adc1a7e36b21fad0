ghost use Rattle.std.specs.Prelude.{◌≡◌, ◌≤◌, length, take};
ghost use Rattle.rsml_meaning.specs.EventFiles.{without_return};

/// How many bytes a line has without one CR at its end.
#[tactic(auto, using(crate::proofs::Widths::return_cut, crate::proofs::Widths::none_cut, crate::proofs::Widths::nothing_cut))]
pub fn trimmed(line: &[u8]) -> usize
    ensures within { result ≤ length line.now }
    ensures bytes { take result line.now ≡ without_return line.now }
{
    match line.split_last() {
        Some((last, front)) => {
            if *last == b'\r' {
                front.len()
            } else {
                line.len()
            }
        }
        None => 0,
    }
}
