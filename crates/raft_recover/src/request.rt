//! What the words of a command line ask for, and the files that they name.

ghost use Rattle.std.specs.Prelude.{◌≡◌, ℕ, List, [], ◌∷◌, ◌++◌, IfOk, IfErr, IfSome, IfNone, map, string_bytes};
ghost use Rattle.raft_recover.specs.Common.{AllByRecursion, LogFileContext, LogQueue, Version, queue_word, version_word, IsNumberWord, NamesContext, NamesPath, IsPathWord, ArePathsNamed, AreFilesOf, IsFilesFault, AskedRecovery, AsksBatch};
ghost use Rattle.raft_recover.specs.Common.{AsksRecovery, AsksNothing, IsAsked, asks_for, path_shown, file_shown};

use raft_base::{Error, FileId, FileSeq, LogFileContext, LogQueue, Result, Version};
use std::alloc::Global;
use std::fs;
use std::rt::Files;

/// What the words of a command line ask for.
#[derive(Drop)]
pub enum Request<'a> {
    /// To print the items of the item batch in the input, which was signed for this file.
    Batch(LogFileContext),
    /// To print the tables that files give.
    Recover(RecoverWords<'a>),
}

/// What the words of a command line say that ask for the tables of files.
#[derive(Drop)]
pub struct RecoverWords<'a> {
    /// The queue of all files.
    pub queue: LogQueue,
    /// The format version of all files.
    pub version: Version,
    /// How many threads may read them. It isn't checked yet.
    pub workers: usize,
    /// The number and the path of each file.
    pub paths: Vec<(FileSeq, &'a str)>,
}

impl<'a> Request<'a> {
    /// Returns what the words of a command line ask for, or `None` if `words` are none that `raftlog`
    /// understands.
    ///
    /// # Errors
    ///
    /// `Memory` alone, and only if they ask for something.
    pub fn parse(alloc: Global, words: &'a [String]) -> Result<Option<Request<'a>>>
        ensures asked { IfOk result (λ r. IfSome r (IsAsked (map string_bytes words.now))) }
        ensures refused { IfOk result (λ r. IfNone r (AsksNothing (map string_bytes words.now))) }
        ensures memory { IfErr result
            (λ e. (e ≡ Error.Memory) × (AsksNothing (map string_bytes words.now) → ⊥)) }
    {
        if let Some(context) = parse_batch_request(words) {
            return Ok(Some(Request::Batch(context)));
        }
        match parse_recover_request(alloc, words)? {
            Some(recovery) => Ok(Some(Request::Recover(recovery))),
            None => Ok(None),
        }
    }
}

/// Returns the file that the words `batch <queue> <seq> <version>` name, whose item batch is to be printed.
/// Returns `None` for other words.
fn parse_batch_request(words: &[String]) -> Option<LogFileContext>
    ensures asked { IfSome result (AsksBatch (map string_bytes words.now)) }
    ensures refused { IfNone result
        ((context : LogFileContext) → AsksBatch (map string_bytes words.now) context → ⊥) }
{
    let [command, queue, seq, version] = words else {
        return None;
    };
    if command.as_str() != "batch" {
        return None;
    }
    parse_file_context(queue.as_str(), seq.as_str(), version.as_str())
}

/// Returns the file whose queue, number and version the three words name, or `None` if one of them isn't
/// understood.
fn parse_file_context(queue: &str, seq: &str, version: &str) -> Option<LogFileContext>
    ensures named { IfSome result (NamesContext queue.now seq.now version.now) }
    ensures refused { IfNone result
        ((context : LogFileContext) → NamesContext queue.now seq.now version.now context → ⊥) }
{
    let queue = parse_queue(queue)?;
    let seq = parse_number(seq)?;
    let version = parse_version(version)?;
    Some(LogFileContext::new(FileId::new(queue, seq), version))
}

/// Returns the recovery that the words `recover <queue> <version> <workers> <seq>=<path>..` ask for, or
/// `None` for other words.
///
/// # Errors
///
/// `Memory` alone, and only if the words ask for one.
fn parse_recover_request<'a>(alloc: Global, words: &'a [String]) -> Result<Option<RecoverWords<'a>>>
    ensures asked { IfOk result (λ r. IfSome r (λ recovery.
        AsksRecovery (map string_bytes words.now) (asks_for recovery))) }
    ensures refused { IfOk result (λ r. IfNone r
        ((recovery : AskedRecovery) → AsksRecovery (map string_bytes words.now) recovery → ⊥)) }
    ensures memory { IfErr result (λ e. (e ≡ Error.Memory)
        × (recovery : AskedRecovery) × AsksRecovery (map string_bytes words.now) recovery) }
{
    let [command, queue, version, workers, path_words @ ..] = words else {
        return Ok(None);
    };
    if command.as_str() != "recover" {
        return Ok(None);
    }
    let Some(queue) = parse_queue(queue.as_str()) else {
        return Ok(None);
    };
    let Some(version) = parse_version(version.as_str()) else {
        return Ok(None);
    };
    let Some(workers) = parse_number(workers.as_str()) else {
        return Ok(None);
    };
    let Some(paths) = parse_paths(alloc, path_words)? else {
        return Ok(None);
    };
    Ok(Some(RecoverWords {
        queue,
        version,
        workers: workers as usize,
        paths,
    }))
}

/// Returns the numbers and paths of the files that `words` name, such as `3=logs/3.raftlog`, or `None` if one
/// of them names no file.
///
/// # Errors
///
/// `Memory` alone, and only if each word names a file.
pub(crate) fn parse_paths(alloc: Global, words: &[String]) -> Result<Option<Vec<(FileSeq, &str)>>>
    ensures named { IfOk result (λ r. IfSome r (λ paths.
        ArePathsNamed (map string_bytes words.now) (map path_shown paths.items))) }
    ensures refused { IfOk result (λ r. IfNone r
        (AllByRecursion IsPathWord (map string_bytes words.now) → ⊥)) }
    ensures memory { IfErr result (λ e. (e ≡ Error.Memory)
        × AllByRecursion IsPathWord (map string_bytes words.now)) }
{
    let mut paths = Ok(Vec::new(alloc));
    for word in words {
        let Some(path) = parse_path(word.as_str()) else {
            return Ok(None);
        };
        paths = append_path(paths, path);
    }
    Ok(Some(paths?))
}

/// Returns `paths` with `path` after them. If there was no memory for an earlier path, it returns that error
/// again: so all words are looked at first, and words that name no file are reported before lack of memory.
///
/// # Errors
///
/// `Memory`, now or for an earlier path.
fn append_path<'a>(
    paths: Result<Vec<(FileSeq, &'a str)>>,
    path: (FileSeq, &'a str),
) -> Result<Vec<(FileSeq, &'a str)>>
    ensures named { (words : List (List ℕ)) (word : List ℕ)
        → IfOk paths.entry (λ paths. ArePathsNamed words (map path_shown paths.items))
        → NamesPath word path.entry.0 path.entry.1.now
        → IfOk result (λ paths. ArePathsNamed (words ++ word ∷ []) (map path_shown paths.items)) }
    ensures memory { IfErr paths.entry (λ e. e ≡ Error.Memory)
        → IfErr result (λ e. e ≡ Error.Memory) }
{
    let mut paths = paths?;
    paths.push(path)?;
    Ok(paths)
}

/// Returns the number and the path of the file that `word` names, as `SEQ=PATH`. Returns `None` for any other
/// word.
fn parse_path(word: &str) -> Option<(FileSeq, &str)>
    ensures named { IfSome result (λ file. NamesPath word.now file.0 file.1.now) }
    ensures refused { IfNone result (IsPathWord word.now → ⊥) }
{
    let (seq, path) = word.split_once('=')?;
    Some((parse_number(seq)?, path))
}

/// Reads the files whose numbers and paths are in `named`, one after another. Returns the number and all
/// bytes of each.
///
/// # Errors
///
/// `Io` if a file can't be read; `Memory`.
#[doc(hidden)]
pub fn read_files<R: Files + AllocGlobal>(
    rt: &R,
    named: &[(FileSeq, &str)],
) -> Result<Vec<(FileSeq, Vec<u8>)>>
    ensures ok { IfOk result (λ files. AreFilesOf (map path_shown named.now)
        (map file_shown files.items)) }
    ensures fault { IfErr result IsFilesFault }
{
    let mut files = Vec::with_capacity(rt.alloc(), named.len())?;
    for &(seq, path) in named {
        files.push((seq, fs::read(rt, path)?))?;
    }
    Ok(files)
}

/// Returns the queue that `word` names, `append` or `rewrite`, or `None` for any other word.
pub(crate) fn parse_queue(word: &str) -> Option<LogQueue>
    ensures named { IfSome result (λ queue. word.now ≡ queue_word queue) }
    ensures refused { IfNone result ((queue : LogQueue) → word.now ≡ queue_word queue → ⊥) }
{
    match word {
        "append" => Some(LogQueue::Append),
        "rewrite" => Some(LogQueue::Rewrite),
        _ => None,
    }
}

/// Returns the format version that `word` names, `1` or `2`, or `None` for any other word.
pub(crate) fn parse_version(word: &str) -> Option<Version>
    ensures named { IfSome result (λ version. word.now ≡ version_word version) }
    ensures refused { IfNone result ((version : Version) → word.now ≡ version_word version → ⊥) }
{
    match word {
        "1" => Some(Version::V1),
        "2" => Some(Version::V2),
        _ => None,
    }
}

/// Returns the number that `word` spells in decimal digits, without a sign. Returns `None` for any other
/// word, and for a number above 2^64 - 1.
fn parse_number(word: &str) -> Option<u64>
    ensures named { IfSome result (IsNumberWord word.now) }
    ensures refused { IfNone result ((n : ℕ) → IsNumberWord word.now n → ⊥) }
{
    if word.starts_with('+') {
        return None;
    }
    word.parse().ok()
}
