//! Histories in pieces: a context for each stretch of their batches, which are merged in several orders.

use super::bound::{Written, bound_of_batches, is_within};
use super::histories::Batch;
use super::owed::Row;
use super::{bytes_of_digits, count_cuttings};
use raft_base::{Error, FileId, LogQueue, Result, Version};
use raft_memtable::MemTableRecoverContext;
use raft_records::{FilePart, next_batch};
use std::alloc::Global;

/// Batches of a queue, in order.
#[derive(Drop)]
pub(crate) struct History {
    alloc: Global,
    queue: LogQueue,
    pub(crate) batches: Vec<Written>,
}

/// A context that has read the batches from one on and below another.
#[derive(Drop)]
pub(crate) struct Piece {
    pub(crate) context: MemTableRecoverContext,
    first: usize,
    end: usize,
}

/// The order in which pieces are merged.
#[derive(Clone, Copy, Debug)]
enum Order {
    FromLeft,
    FromRight,
    ByHalves,
}

const ORDERS: [Order; 3] = [Order::FromLeft, Order::FromRight, Order::ByHalves];

impl History {
    /// Returns the batches of files of version 1, given in base 16. Batches with the same number are parts of one file.
    pub(crate) fn from_digits(
        alloc: Global,
        queue: LogQueue,
        batches: &[Batch],
    ) -> Result<History> {
        let mut history = History {
            alloc,
            queue,
            batches: Vec::new(alloc),
        };
        let (mut file, mut offset) = (0u64, 0u64);
        for (seq, digits) in batches {
            if *seq != file {
                (file, offset) = (*seq, 0);
            }
            let bytes = bytes_of_digits(alloc, digits)?;
            let end = offset.saturating_add(bytes.len() as u64);
            let part = FilePart::new(FileId::new(queue, file), Version::V1, offset, bytes)?;
            history.push_file(&part)?;
            offset = end;
        }
        Ok(history)
    }

    /// Adds the batches of a file to the history.
    fn push_file(&mut self, part: &FilePart) -> Result<()> {
        let mut at = 0;
        for _ in 0..part.bytes().len() {
            if at > part.bytes().len() {
                break;
            }
            let Some((batch, next)) = next_batch(part, at)? else {
                break;
            };
            self.batches
                .push(Written::new(self.alloc, batch, part.id())?)?;
            at = next;
        }
        Ok(())
    }

    /// Checks that the context of a piece holds no more than it may; `Failed` where it does.
    fn check_bound(&self, piece: &Piece) -> Result<()> {
        let Some(batches) = self.batches.get(piece.first..piece.end) else {
            return Err(Error::Failed);
        };
        if is_within(
            piece.context.kept()?,
            bound_of_batches(self.alloc, batches)?,
        ) {
            Ok(())
        } else {
            Err(Error::Failed)
        }
    }

    /// Replays the batches from `first` on and below `end`, and checks the context after each.
    pub(crate) fn replay_range(&self, first: usize, end: usize) -> Result<Piece> {
        let mut piece = Piece {
            context: MemTableRecoverContext::new(self.alloc)?,
            first,
            end: first,
        };
        for written in self.batches.iter().take(end).skip(first) {
            replay(&mut piece.context, written)?;
            piece.end = piece.end.saturating_add(1);
            self.check_bound(&piece)?;
        }
        Ok(piece)
    }

    /// Returns the pieces of the history, which is cut behind each batch whose bit in `cuts` is set.
    fn cut_into_pieces(&self, cuts: u64) -> Result<Vec<Piece>> {
        let count = self.batches.len();
        let (mut pieces, mut first, mut left) = (Vec::new(self.alloc), 0, cuts);
        for end in 1..count {
            if left % 2 == 1 {
                pieces.push(self.replay_range(first, end)?)?;
                first = end;
            }
            left /= 2;
        }
        pieces.push(self.replay_range(first, count)?)?;
        Ok(pieces)
    }

    /// Merges a piece with its newer neighbor, and checks the context.
    fn merge_pieces(&self, older: Piece, newer: Piece) -> Result<Piece> {
        let mut piece = older;
        piece.end = newer.end;
        merge(&mut piece.context, newer.context, self.queue)?;
        self.check_bound(&piece)?;
        Ok(piece)
    }

    /// Merges pieces one by one, from the first on; `None` where there is none.
    fn merge_from_left(&self, pieces: Vec<Piece>) -> Result<Option<Piece>> {
        let mut whole: Option<Piece> = None;
        for piece in pieces {
            whole = Some(match whole {
                Some(older) => self.merge_pieces(older, piece)?,
                None => piece,
            });
        }
        Ok(whole)
    }

    /// Merges pieces one by one, from the last on; `None` where there is none.
    fn merge_from_right(&self, pieces: Vec<Piece>) -> Result<Option<Piece>> {
        let mut whole: Option<Piece> = None;
        for piece in pieces.into_iter().rev() {
            whole = Some(match whole {
                Some(newer) => self.merge_pieces(piece, newer)?,
                None => piece,
            });
        }
        Ok(whole)
    }

    /// Merges the first piece with the second, the third with the fourth, and so on.
    fn merge_in_pairs(&self, pieces: Vec<Piece>) -> Result<Vec<Piece>> {
        let mut pairs = Vec::new(self.alloc);
        let half = pieces.len().div_ceil(2);
        let mut rest = pieces.into_iter();
        for _ in 0..half {
            if let Some(older) = rest.next() {
                pairs.push(self.merge_with_neighbor(older, rest.next())?)?;
            }
        }
        Ok(pairs)
    }

    /// Merges a piece with its newer neighbor, if it has one.
    fn merge_with_neighbor(&self, older: Piece, newer: Option<Piece>) -> Result<Piece> {
        match newer {
            Some(newer) => self.merge_pieces(older, newer),
            None => Ok(older),
        }
    }

    /// Merges at most sixteen pieces in halves, and returns what they give, if that is a single piece.
    fn merge_by_halves(&self, pieces: Vec<Piece>) -> Result<Option<Piece>> {
        let mut pieces = pieces;
        for _ in 0..4 {
            pieces = self.merge_in_pairs(pieces)?;
        }
        self.merge_from_left(pieces)
    }

    /// Tests whether a piece has the whole history of a row, gives what the row expects, and has no more items that
    /// wait.
    fn is_whole_and_right(&self, whole: Option<Piece>, row: &Row) -> Result<bool> {
        let Some(whole) = whole else {
            return Ok(false);
        };
        if whole.first != 0 || whole.end != self.batches.len() {
            return Ok(false);
        }
        let kept = whole.context.kept()?;
        let tables = whole.context.finish()?;
        Ok(row.is_met(self.alloc, &tables)? && kept.waiting_items <= row.waiting)
    }

    /// Returns the whole history as one piece: cut behind each batch whose bit in `cuts` is set, and merged in an
    /// order.
    fn whole_as_one_piece(&self, cuts: u64, order: Order) -> Result<Option<Piece>> {
        let pieces = self.cut_into_pieces(cuts)?;
        match order {
            Order::FromLeft => self.merge_from_left(pieces),
            Order::FromRight => self.merge_from_right(pieces),
            Order::ByHalves => self.merge_by_halves(pieces),
        }
    }

    /// Tests whether the history of a row, cut and merged in this way, gives what the row expects, or is refused, if it
    /// expects that.
    fn is_row_met_at_cutting(&self, cuts: u64, order: Order, row: &Row) -> Result<bool> {
        match self.whole_as_one_piece(cuts, order) {
            Ok(whole) => self.is_whole_and_right(whole, row),
            Err(Error::Corruption(_)) => Ok(row.lines.is_none()),
            Err(error) => Err(error),
        }
    }

    /// Tests whether the history of a row gives what the row expects, or is refused, at each cutting, merged in each
    /// order.
    pub(crate) fn is_row_met_at_each_cutting(&self, row: &Row) -> Result<bool> {
        for cuts in 0..count_cuttings(self.batches.len()) {
            for &order in &ORDERS {
                if !self.is_row_met_at_cutting(cuts, order, row)? {
                    return Ok(false);
                }
            }
        }
        Ok(true)
    }
}

/// Replays a copy of a batch.
pub(crate) fn replay(context: &mut MemTableRecoverContext, written: &Written) -> Result<()> {
    context.replay(written.batch.clone()?, written.file)
}

/// Merges a context with its newer neighbor.
pub(crate) fn merge(
    older: &mut MemTableRecoverContext,
    newer: MemTableRecoverContext,
    queue: LogQueue,
) -> Result<()> {
    older.merge(newer, queue)
}
