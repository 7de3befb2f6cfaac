//! Where the settings of later connections come from.
ghost use Rattle.std.specs.Prelude.{IfSome};
ghost use Rattle.negotiate.specs.Settings.{Settings, settings_of};

use crate::policy::Policy;
use negotiate::Config;
use std::marker::PhantomData;

/// A source of settings, which may change while a server runs.
pub trait ConfigSource {
    /// For contracts: the settings that may follow.
    ghost gives: { Self → Settings → Type 0 };

    /// Returns the settings of the connections that are opened from now on, or `None` if they are
    /// those of the connections before, also where the source cannot be read.
    ///
    /// `given`: they are among those that may follow. `fewer`: no others may follow later.
    fn renewed(&mut self) -> Option<Box<Config>>
        ensures given { IfSome result (λ c. gives self.old (settings_of c.value)) }
        ensures fewer { (s : Settings) → gives self.new s → gives self.old s };
}

/// The source of settings that never change.
#[derive(Drop)]
pub struct Unchanging;

impl ConfigSource for Unchanging {
    ghost gives = { λ _ _. ⊥ };

    fn renewed(&mut self) -> Option<Box<Config>> {
        None
    }
}

/// A source whose settings `P` allows.
#[derive(Drop)]
pub(crate) struct AllowedSource<C: ConfigSource, P: Policy> {
    source: C,
    policy: PhantomData<P>,
    ghost allowed: { (s : Settings) → C.gives source s → ∥ P.allows s ∥₁ },
}

impl<C: ConfigSource, P: Policy> AllowedSource<C, P> {
    /// Creates a source of the same settings.
    pub(crate) fn new(source: C) -> AllowedSource<C, P>
        requires allowed { (s : Settings) → C.gives source s → ∥ P.allows s ∥₁ }
    {
        AllowedSource {
            source,
            policy: PhantomData,
        }
    }

    /// Returns the next settings, as `ConfigSource::renewed` does.
    pub(crate) fn renewed(&mut self) -> Option<Box<Config>>
        ensures { IfSome result (λ c. ∥ P.allows (settings_of c.value) ∥₁) }
    {
        self.source.renewed()
    }
}
