ghost use Rattle.std.specs.Prelude.{◌≡◌, ◌<◌, All, length};
ghost use Rattle.std.specs.List.{list_any, list_all};
ghost use Rattle.and_or_tables.specs.Ground.{known};

use and_or_tables::Truths;

/// Whether some of these phrases is true.
pub fn some_true(truths: &Truths, numbers: &[u32]) -> bool
    requires { All (λ k. k < length truths.now) numbers.now }
    ensures { result ≡ list_any (known truths.now) numbers.now }
{
    for number in numbers {
        if truths.get(*number) {
            return true;
        }
    }
    false
}

/// Whether each of these phrases is true.
pub fn each_true(truths: &Truths, numbers: &[u32]) -> bool
    requires { All (λ k. k < length truths.now) numbers.now }
    ensures { result ≡ list_all (known truths.now) numbers.now }
{
    for number in numbers {
        if !truths.get(*number) {
            return false;
        }
    }
    true
}
