ghost use Rattle.std.specs.Prelude.{◌≡◌, true, Bool, IsTrue};

use crate::streams::{Sink, Source};

/// What a connection is told by its door, and how it ends for whoever is at its other end.
pub trait Peer: Source + Sink {
    /// Whether a door ever asks connections of this type to close.
    ghost asks: { Bool };

    /// Whether the door has asked it to close with its next response. Nothing is said of when it has.
    fn is_asked_to_close(&self) -> bool
        ensures { IsTrue result → asks ≡ true };

    /// Ends the connection in both directions, behind the last response: its other end sees that at once. Where it
    /// `lingers`, what the other end has still said is taken first, for a moment, so that it can read the response.
    fn finish(&mut self, lingers: bool)
        ensures left { Self.Source.left self.new ≡ Self.Source.left self.old }
        ensures held { Self.Sink.held self.new ≡ Self.Sink.held self.old }
        ensures reads { Self.Source.faults self.new ≡ Self.Source.faults self.old }
        ensures writes { Self.Sink.faults self.new ≡ Self.Sink.faults self.old };
}
