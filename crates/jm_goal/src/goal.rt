ghost use Rattle.std.specs.Prelude.{◌≡◌, ◌<◌, ◌≤◌, ◌^◌, ◌⊎◌, Some, length, slice_get, vec_len};
ghost use Rattle.jm_goal.specs.Goals.{most_handlers};

use std::marker::Model;

/// The handlers of a specification, at most 16, each with the group of the states that it is for; the creation letters,
/// of which bit k stands for letter k; the parameters that a reported instance has to bind, of which bit p stands for
/// parameter p; and the handlers that reset their property, of which bit k stands for handler k. Contracts see it as
/// its `GoalDefinition`.
#[derive(Drop)]
pub struct Goal {
    groups: Vec<u16>,
    creation: u32,
    must_bind: u8,
    resets: u16,
}

impl Model for Goal {
    ghost use Rattle.std.specs.Prelude.{◌≤◌, length};
    ghost use Rattle.jm_goal.specs.Goals.{GoalDefinition};

    ghost Value = { GoalDefinition };

    ghost view = { λ g. record {
      groups = g.groups.items;
      creation = g.creation;
      must_bind = g.must_bind;
      resets = g.resets;
    } };

    ghost invariant = { λ g. length g.groups.items ≤ 16 };
}

impl Goal {
    /// The goal of these handlers: handler k has group `groups[k]`, and resets its property where bit k of `resets` is
    /// set. None does where a reported instance has to bind something.
    pub fn new(groups: Vec<u16>, creation: u32, must_bind: u8, resets: u16) -> Goal
        requires bounded { vec_len groups ≤ most_handlers }
        requires in_range { resets < 2 ^ vec_len groups }
        requires apart { (resets ≡ 0) ⊎ (must_bind ≡ 0) }
        ensures { result ≡ record {
          groups = groups.items;
          creation = creation;
          must_bind = must_bind;
          resets = resets;
        } }
    {
        Goal {
            groups,
            creation,
            must_bind,
            resets,
        }
    }

    /// How many handlers there are, at most 16.
    pub fn handlers(&self) -> u8
        ensures value { result ≡ length self.now.groups }
        ensures bounded { result ≤ most_handlers }
    {
        self.groups.len() as u8
    }

    /// The group of a handler.
    pub fn group(&self, handler: u8) -> u16
        requires { handler < length self.now.groups }
        ensures { slice_get self.now.groups handler ≡ Some result }
    {
        self.groups[handler as usize]
    }

    /// The creation letters: bit k stands for letter k.
    pub fn creation(&self) -> u32
        ensures { result ≡ self.now.creation }
    {
        self.creation
    }

    /// The parameters that a reported instance has to bind: bit p stands for parameter p.
    pub fn must_bind(&self) -> u8
        ensures { result ≡ self.now.must_bind }
    {
        self.must_bind
    }

    /// The handlers that reset their property: bit k stands for handler k.
    pub fn resets(&self) -> u16
        ensures { result ≡ self.now.resets }
    {
        self.resets
    }
}
