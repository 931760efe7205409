//! The value behind a handle of an engine.

ghost use Rattle.std.specs.Prelude.{◌≡◌, true, IfErr, OnOk};
ghost use Rattle.raft_ffi.specs.Words.{HandedFails, IsRewritten, IsUnrewritten, AreMovedAgain, AreUnmovedAgain, IsTaking};

use crate::order_calls::{Taking, take_order_within};
use raft_base::{Error, FileId, FileSeq, Result};
use raft_engine::Engine;
use raft_orders::HandedFiles;
use std::marker::Model;

/// An engine whose files the caller keeps: its changes are orders, which wait until the caller takes them.
#[derive(Drop)]
pub struct HeldEngine {
    /// The engine, over files that hand out orders.
    pub(crate) engine: Engine<HandedFiles>,
}

impl Model for HeldEngine {
    ghost use Rattle.raft_engine.specs.KeptEngine.{KeptEngine};
    ghost use Rattle.raft_engine.specs.KeptEngineCode.{engine_code};

    ghost Value = { KeptEngine };

    ghost coded = { engine_code };

    ghost use Rattle.raft_ffi.specs.HeldEngineView.{engine_in};

    ghost view = { engine_in };
}

impl HeldEngine {
    /// Makes the value for a handle of an engine.
    pub(crate) fn of_engine(engine: Engine<HandedFiles>) -> HeldEngine
        ensures { result ≡ engine }
    {
        HeldEngine { engine }
    }

    /// Takes the oldest order that waits, if it has at most `room` bytes. The engine itself is unchanged.
    pub(crate) fn take_order(&mut self, room: usize) -> Taking
        ensures taking { IsTaking self.old.asks room result }
        ensures same { self.new ≡ self.old }
    {
        let take = |files: &mut HandedFiles| -> Taking
            ensures { IsTaking files.old.asks room result × (files.new.asks ≡ files.old.asks) }
        { take_order_within(files, room) };
        self.engine.with_files(take)
    }

    /// Keeps a copy of `bytes`, the block that stands at `offset` of `file`, for the next call that moves records. The engine
    /// itself is unchanged.
    ///
    /// # Errors
    ///
    /// `Memory` alone. This block isn't lent then.
    pub(crate) fn lend_block(&mut self, file: FileId, offset: u64, bytes: &[u8]) -> Result<()>
        ensures same { self.new ≡ self.old }
        ensures memory { IfErr result (λ e. e ≡ Error.Memory) }
    {
        let lend = |files: &mut HandedFiles| -> Result<()>
            ensures { IfErr result (λ e. e ≡ Error.Memory) × (files.new.asks ≡ files.old.asks) }
        { files.lend(file, offset, bytes) };
        self.engine.with_files(lend)
    }

    /// Moves what the tables have in append files numbered at or below `gate` to the rewrite queue, and drops all blocks that
    /// were lent.
    ///
    /// # Errors
    ///
    /// `TryAgain` if a block has to be read that isn't lent; the others of [`Engine::rewrite`]. Some regions may have moved
    /// then, and the blocks are dropped too.
    pub(crate) fn rewrite(&mut self, gate: FileSeq) -> Result<()>
        ensures ok { OnOk result (IsRewritten gate self.old self.new) }
        ensures accepted { OnOk result (self.old.intact ≡ true) }
        ensures err { IfErr result (IsUnrewritten HandedFails gate self.old self.new) }
    {
        let answer = self.engine.rewrite(gate);
        self.drop_lent_blocks();
        answer
    }

    /// Moves what the tables have in rewrite files to a new one, and drops all blocks that were lent.
    ///
    /// # Errors
    ///
    /// `TryAgain` if a block has to be read that isn't lent; the others of [`Engine::rewrite_again`]. Some regions may have
    /// moved then, and the blocks are dropped too.
    pub(crate) fn rewrite_again(&mut self) -> Result<()>
        ensures ok { OnOk result (AreMovedAgain self.old self.new) }
        ensures accepted { OnOk result (self.old.intact ≡ true) }
        ensures err { IfErr result (AreUnmovedAgain HandedFails self.old self.new) }
    {
        let answer = self.engine.rewrite_again();
        self.drop_lent_blocks();
        answer
    }

    /// Drops all blocks that were lent. The engine itself is unchanged.
    fn drop_lent_blocks(&mut self)
        ensures { self.new ≡ self.old }
    {
        let clear = |files: &mut HandedFiles| -> ()
            ensures { files.new.asks ≡ files.old.asks }
        { files.clear_lent() };
        self.engine.with_files(clear);
    }
}
