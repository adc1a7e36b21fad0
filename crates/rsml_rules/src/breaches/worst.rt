ghost use Rattle.std.specs.Prelude.{◌≡◌, None};
ghost use Rattle.std.specs.Option.{option_map};
ghost use Rattle.rsml_syntax.specs.rules.Breaches.{breach};
ghost use Rattle.rsml_rules.specs.breaches.Noting.{noted};

use rsml_syntax::Text;
use std::marker::Model;

/// How many breaches are kept.
const MOST: usize = 64;

/// The lowest broken rule so far, with the first name at which it is broken. Contracts see that alone. Besides, the first breaches are
/// kept, in the order in which they are found.
#[derive(Drop)]
pub struct Worst<'a> {
    found: Option<(u8, &'a Text)>,
    first: [Option<(u8, &'a Text)>; MOST],
    count: usize,
}

impl<'a> Model for Worst<'a> {
    ghost use Rattle.std.specs.Prelude.{Option};
    ghost use Rattle.std.specs.Option.{option_map};
    ghost use Rattle.rsml_syntax.specs.rules.Breaches.{Breach};

    ghost Value = { Option Breach };

    ghost view = { λ w. option_map (λ p. record { rule = p.0; shown = p.1.now }) w.found };
}

impl<'a> Worst<'a> {
    /// Nothing is broken so far.
    pub fn new() -> Worst<'a>
        ensures { result ≡ None }
    {
        Worst {
            found: None,
            first: [None; MOST],
            count: 0,
        }
    }

    /// Takes note of a rule at a name, if it is broken there.
    pub fn note(&mut self, rule: u8, shown: &'a Text, broken: bool)
        ensures { self.new ≡ noted self.old (breach rule shown.now broken) }
    {
        if broken {
            self.keep(rule, shown);
            match &self.found {
                Some((lowest, _)) if *lowest <= rule => {}
                _ => self.found = Some((rule, shown)),
            }
        }
    }

    /// Keeps a breach, where there is room.
    fn keep(&mut self, rule: u8, shown: &'a Text)
        ensures { self.new ≡ self.old }
    {
        let count = self.count;
        if count < MOST {
            let first = &mut self.first[..];
            first[count] = Some((rule, shown));
            self.count = count + 1;
        }
    }

    /// The first breaches, in the order in which they were found.
    pub fn first(&self) -> &[Option<(u8, &'a Text)>] {
        &self.first
    }

    /// The lowest broken rule, and the name.
    pub fn found(&self) -> Option<(u8, &'a Text)>
        ensures { option_map (λ p. record { rule = p.0; shown = p.1.now }) result ≡ self.now }
    {
        self.found
    }
}
