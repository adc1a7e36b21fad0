use rsml_syntax::Text;
use std::alloc::Global;

/// How many differences are kept.
pub const MOST: usize = 20;

/// Whether a part of something differs, and how that is said.
pub type Part = (bool, &'static str);

/// What differs: the name of it in each of the two texts, or in that in which alone it stands.
#[derive(Clone, Copy)]
pub struct Difference<'t> {
    pub sort: &'static str,
    pub words: &'static str,
    pub one: Option<&'t Text>,
    pub two: Option<&'t Text>,
}

/// The first differences, and how many there are. Once memory is refused, some may be missing.
#[derive(Drop)]
pub struct Found<'t> {
    pub first: Vec<Difference<'t>>,
    pub count: usize,
    pub is_refused: bool,
}

impl<'t> Found<'t> {
    /// None so far.
    pub fn new(alloc: Global) -> Found<'t> {
        Found {
            first: Vec::new(alloc),
            count: 0,
            is_refused: false,
        }
    }

    /// One more.
    fn add(&mut self, difference: Difference<'t>) {
        if self.count < MOST && self.first.push(difference).is_err() {
            self.is_refused = true;
        }
        self.count = self.count.saturating_add(1);
    }

    /// Something that stands in the first text alone.
    pub fn only_first(&mut self, sort: &'static str, name: &'t Text) {
        self.add(Difference {
            sort,
            words: "is only in the first file",
            one: Some(name),
            two: None,
        });
    }

    /// Something that stands in the second text alone.
    pub fn only_second(&mut self, sort: &'static str, name: &'t Text) {
        self.add(Difference {
            sort,
            words: "is only in the second file",
            one: None,
            two: Some(name),
        });
    }

    /// Those of these parts that differ of something that stands in both texts.
    pub fn compare(&mut self, sort: &'static str, one: &'t Text, two: &'t Text, parts: &[Part]) {
        for part in parts {
            if part.0 {
                self.add(Difference {
                    sort,
                    words: part.1,
                    one: Some(one),
                    two: Some(two),
                });
            }
        }
    }
}
