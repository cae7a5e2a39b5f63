//! Where the text of a command goes.
ghost use Rattle.std.specs.Prelude.{◌≡◌, ◌≤◌, ◌<◌, [], length, IfOk, OnErr, Ok};
ghost use Rattle.std.specs.Io.KnownBytes.{WriteAppends};
ghost use Rattle.std.specs.Io.{WritesAtMost};
ghost use Rattle.lx_ports.specs.Counts.{Rose};
ghost use Rattle.lx_ports.specs.Sinks.{SinkState};

/// The sink took nothing of a piece.
#[derive(Clone, Copy, Debug, PartialEq, Eq, Drop)]
pub struct SinkFailed;

/// Takes text, piece by piece.
pub trait Sink {
    /// What the sink tells of itself: the bytes that it took, and how often a put has failed.
    ghost state: { Self → SinkState };

    /// Offers a piece, and answers how many of its first bytes were taken: at least one of a piece that is not empty.
    fn put(&mut self, bytes: &[u8]) -> Result<usize, SinkFailed>
        ensures at_most { WritesAtMost result bytes.now }
        ensures at_least { IfOk result (λ count. 0 < length bytes.now → 0 < count) }
        ensures appended { WriteAppends (state self.old).contents (state self.new).contents
            result bytes.now }
        ensures failed { OnErr result (Rose (state self.old).faults (state self.new).faults) }
        ensures faults_stand { (state self.old).faults ≤ (state self.new).faults }

        ensures empty { bytes.now ≡ [] → result ≡ Ok 0 }
        ensures empty_state { bytes.now ≡ [] → state self.new ≡ state self.old };
}
