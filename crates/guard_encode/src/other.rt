//! Another machine with the same worlds: its phrases and its members.
ghost use Rattle.std.specs.Prelude.{◌≡◌, Bool, IfOk, IsTrue};
ghost use Rattle.rsml_syntax.specs.declared.world.World.{World};
ghost use Rattle.rsml_meaning.specs.Worlds.{IsWorld};
ghost use Rattle.rsml_meaning.specs.Truth.{view};
ghost use Rattle.rsml_meaning.specs.Groups as meaning;
ghost use Rattle.rsml_meaning.specs.Groups.{enabled};
ghost use Rattle.ground_groups.specs.Groups.{MemberIs};
ghost use Rattle.equal_frames.specs.Alike.{HaveSameWorlds};
ghost use Rattle.guard_encode.specs.Encoding.{IsMember, Keeps, Tells};
ghost use Rattle.guard_encode.specs.Others.{TellPhrases};

use crate::enabled::enabled_by;
use crate::encoder::Encoder;
use crate::phrases::all_phrases;
use bdd_core::Ref;
use elaborate::{Machine, members_are_enabled_as_in_the_text};
use ground_groups::Member;
use keyed_levels::keyed_laws;
use rsml_base::NoMemory;
use std::alloc::Global;
use std::marker::Model;

/// The diagrams of the phrases of another machine.
#[derive(Drop)]
pub struct OtherPhrases {
    diagrams: Vec<Ref>,
}

impl Model for OtherPhrases {
    ghost use Rattle.std.specs.Prelude.{List, ℕ};

    ghost Value = { List ℕ };

    ghost view = { λ p. p.diagrams.items };
}

impl OtherPhrases {
    /// One diagram for each phrase, in order.
    fn refs(&self) -> &[Ref]
        ensures { result.now ≡ self.now }
    {
        self.diagrams.as_slice()
    }
}

impl<'m, 'a> Encoder<'m, 'a> {
    /// The diagrams of the phrases of another machine with the same worlds. `alike` tells of each which comparison may be like it; any
    /// numbers will do.
    pub fn phrases_of(
        &mut self,
        alloc: Global,
        other: &Machine<'_>,
        alike: &[u32],
    ) -> Result<OtherPhrases, NoMemory>
        requires { HaveSameWorlds self.old.machine.base.spec other.now.base.spec }
        ensures keeps { Keeps self.old self.new }
        ensures answer { IfOk result (TellPhrases self.new other.now.base) }
    {
        let diagrams = all_phrases(
            alloc,
            &mut self.arena,
            &mut self.sums,
            &self.levels,
            self.active.as_slice(),
            other.macros(),
            alike,
        )?;
        Ok(OtherPhrases { diagrams })
    }

    /// Where a member of another machine with the same worlds is enabled.
    pub fn enabled_of(
        &mut self,
        other: &Machine<'_>,
        phrases: &OtherPhrases,
        member: Member,
    ) -> Result<Ref, NoMemory>
        requires worlds { HaveSameWorlds self.old.machine.base.spec other.now.base.spec }
        requires phrases { TellPhrases self.old other.now.base phrases.now }
        requires member { IsMember other.now member }
        ensures keeps { Keeps self.old self.new }
        ensures text { IfOk result (λ r. (m : meaning.Member) → MemberIs other.now.base.spec m member
            → Tells self.new (λ w. enabled (view other.now.base.spec w) m) r) }
    {
        other.law();
        members_are_enabled_as_in_the_text();
        enabled_by(
            &mut self.arena,
            self.active.as_slice(),
            phrases.refs(),
            other,
            member,
        )
    }

    /// Whether two functions are one: then they tell the same.
    pub fn are_one(&self, f: Ref, g: Ref) -> bool
        ensures { IsTrue result → (one other : World → Bool) → Tells self.now one f → Tells self.now other g
            → (w : World) → IsWorld self.now.machine.base.spec w → one w ≡ other w }
    {
        keyed_laws();
        let _ = &self.arena;
        f == g
    }
}
