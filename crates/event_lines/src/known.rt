ghost use Rattle.std.specs.Prelude.{◌≡◌, ◌≢◌, ◌++◌, ℕ, List, IfSome, MatchOption, true};
ghost use Rattle.event_lines.specs.helpers.Kept.{IsKept};

/// How many names are looked through, one after another, before a hash table is asked.
pub const MOST: usize = 8;

/// A name, and the number that is kept for it.
#[derive(Clone, Copy)]
pub struct Known<'a> {
    pub name: &'a [u8],
    pub number: usize,
}

/// What stands behind a name that a text begins with. It goes byte by byte, since names are short.
pub fn behind<'t>(text: &'t [u8], name: &[u8]) -> Option<&'t [u8]>
    ensures { MatchOption result ((rest : List ℕ) → text.now ≢ name.now ++ rest)
        (λ rest. text.now ≡ name.now ++ rest.now) }
{
    if text.len() < name.len() {
        return None;
    }
    let (front, rest) = text.split_at(name.len());
    for place in 0..name.len() {
        if front[place] != name[place] {
            return None;
        }
    }
    Some(rest)
}

impl<'a> Known<'a> {
    /// Whether this is the name.
    fn is(&self, name: &[u8]) -> bool
        ensures { result ≡ true → self.now.name.now ≡ name.now }
    {
        match behind(name, self.name) {
            Some(rest) => rest.is_empty(),
            None => false,
        }
    }
}

/// The number that is kept for a name among these.
pub fn kept(known: &[Known<'_>], name: &[u8]) -> Option<usize>
    ensures { IfSome result (IsKept known.now name.now) }
{
    for one in known {
        if one.is(name) {
            return Some(one.number);
        }
    }
    None
}
