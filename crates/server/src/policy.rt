//! For contracts: the settings of a server and all its connections.
ghost use Rattle.std.specs.Prelude.{[], ℕ, None, false};
ghost use Rattle.negotiate.specs.Settings.{Settings};
ghost use Rattle.server.specs.Configuration.{Configuration};

use std::marker::Brand;

/// For contracts: the settings of one server and all its connections, which are known at run time
/// only. A caller of a function that is generic in `P: Policy` passes the type `Brand`, and picks
/// the settings in the proof.
pub trait Policy {
    /// The settings of each connection, but for those of its association, which may change.
    ghost configuration: { Configuration };
    /// The settings that an association may have.
    ghost allows: { Settings → Type 0 };
    /// The number of slots: how many connections there can be at once.
    ghost at_once: { ℕ };
}

impl Policy for Brand {
    ghost configuration = { record {
      settings = record {
        called = [];
        any_called = false;
        callers = [];
        max_pdu = 0;
        max_data = 0;
        additional = record { classes = []; transfers = [] };
      };
      artim = 0;
      idle = 0;
      longest = None;
    } };

    ghost allows = { λ _. ⊥ };

    ghost at_once = { 0 };
}
