//! What a lane hands its declarations and messages to.
ghost use Rattle.std.specs.Prelude.{◌<◌, ℕ, Option, OnOk};
ghost use Rattle.mcap_wire.specs.Limits.{declaration_limit};
ghost use Rattle.rec_data.specs.declared.schema.SchemaDef.{SchemaDef};
ghost use Rattle.record_core.specs.declared.answers.CallRefused.TheVariants.{TooLarge};
ghost use Rattle.history_ids.specs.DeclarationFits.{DefFits};
ghost use Rattle.feed_lane.specs.Pass.{PassState};
ghost use Rattle.feed_lane.specs.PassCalls.{with_reason, DeclaredInto, PublishedBy};

use rec_data::ChannelDef;
use record_core::{CallRefused, Declared, NewMessage};

/// The right to declare and to publish at an intake, for one lane. It stands for what its calls showed since it was begun:
/// what they added, and how each found the intake.
pub trait Pass {
    /// The second is the first, later, and its calls since then showed this.
    ghost since: { Self → Self → PassState → Type 0 };

    /// The last channel that got an id has this schema, or none where this is none.
    ghost knows: { Self → Option SchemaDef → Type 0 };

    /// Declares a channel with its schema.
    fn declare(&mut self, channel: &ChannelDef) -> Result<Declared, CallRefused>
        requires { DefFits channel.now }
        ensures shows { (begun : Self) (before : PassState) → since begun self.old before
            → (after : PassState) × since begun self.new after × DeclaredInto before after channel.now result }
        ensures knows { OnOk result (knows self.new channel.now.schema) };

    /// The same of a channel that has the schema of the last channel that got an id. However long the schema is, it isn't
    /// looked at.
    fn declare_like(&mut self, channel: &ChannelDef) -> Result<Declared, CallRefused>
        requires fits { DefFits channel.now }
        requires knows { knows self.old channel.now.schema }
        ensures shows { (begun : Self) (before : PassState) → since begun self.old before
            → (after : PassState) × since begun self.new after × DeclaredInto before after channel.now result }
        ensures knows { knows self.new channel.now.schema };

    /// Publishes a message on a channel that was declared.
    fn publish(&mut self, m: &NewMessage<'_>) -> Result<u64, CallRefused>
        ensures shows { (begun : Self) (before : PassState) → since begun self.old before
            → (after : PassState) × since begun self.new after × PublishedBy before after m.now result }
        ensures knows { (schema : Option SchemaDef) → knows self.old schema → knows self.new schema };

    /// What is refused for its size alone needs no call: the pass shows as well that it was refused so.
    ghost refuses_size: { (begun now : Self) (before : PassState) (len : ℕ) → declaration_limit < len
        → since begun now before → since begun now (with_reason before (TooLarge len)) };
}
