//! The parser of the command line, for the commands that look into a folder, and what `--help` prints.

use clap::{Arg, ArgAction, Command, value_parser};
use raft_base::AllocResult;
use std::alloc::Global;

/// The version that `--version` prints.
const VERSION: &str = "0.1.0";

/// What `raftlog --help` prints below the list of commands.
const AFTER_HELP: &str = "\
To see what is wrong with a folder: raftlog check FOLDER
To see which entries stand where: raftlog dump FOLDER

A folder has the files of two queues, append (new batches) and rewrite (records that were moved):
0000000000000001.raftlog and 0000000000000001.rewrite have the number 1 there. Files with other
endings aren't looked at. Offsets are bytes from the beginning of a file.

Only cut --yes changes log files (see its help). Beside it files --svg alone writes a file, which
has to be a new one. While an engine has a folder open to write to it, no command looks into it, and
while a command does, no engine can open it to write to it, nor can cut --yes: `another engine has
the folder open` may be either. Files that are named one by one aren't locked.

Status:
  0  it is done; of check and dump also: nothing is wrong with what was looked at (dump looks at the
     bytes of entries with --values alone); of regions, files and cut also: an engine can be opened
     over the files, though it may cut off a torn end first
  1  check or dump found that something is wrong (check also: there are no files), or a line on
     standard error says why it isn't done, or not to its end: cut --yes may have cut then
  2  the words ask for nothing that can be done";

/// What `check --help` prints below the options.
const CHECK_HELP: &str = "\
Where all of a file of 1340 bytes can be read, its line says `read from offset 0 to 1340`: the offset
behind the last byte. Below it comes a line for each place where something can't be read:
  - entries that are lost, by region, first and last index: `entries 9 to 10` are those with the
    indexes 9 and 10. The rest of their batch can be read:
    raftlog dump --region REGION --values shows it.
  - a byte at which no batch can be read, and why. Nothing else is known of such a batch, neither
    its entries, nor its keys, nor what it deletes. Which entries it had show those before and
    behind it: raftlog dump has its line between theirs, and with --region REGION between those of
    one region.
  - bytes at the end of the file that weren't searched for batches. Behind a byte without a batch
    the reading goes on only where a whole header says where the next batch begins. Batches that
    stand in the bytes from there on may be whole.
Many such places in one file may mean that it has another number than it was written with, or
another --format.

Then comes what an engine would do that is opened over the files: refuse them, or open them, and
cut off the end of a queue's last file first, as a crash leaves one. Where it refuses a batch that
can be read, since it can't follow those before it, some of these are gone: look at the end of the
file before.

The last line is
  sound    with status 0;
  damaged  with status 1, also where all that is wrong is an end that would be cut off;
  empty    with status 1, where there are no files.

What can't be seen, so that sound is said: that files are gone in front of a queue's first or behind
its last one, or all of a queue's; that a file was renamed to the other queue's name, where its
records can be read there; that a file is empty, or was cut where a batch ends, unless an entry
behind it can't follow then. So all files may be empty, or the last batches of any file gone that
have no entries. Of files named one by one what isn't named isn't looked for.

Files are read in pieces: besides the tables some MiB for each worker are in memory, what stands in
a queue's last file behind the first batch that can't be read, and what is said of one file.";

/// What `regions --help` prints below the options.
const REGIONS_HELP: &str = "\
7 entries 3..7 keys 1 append 2 rewrite -
  Region 7 has the entries with the indexes 3 to 6 (with --json: first 3, last 6) and one key, and
  its oldest record stands in append file 2; it has none in a rewrite file.
cleaned 4 9
  The records of these regions are gone (`cleaned -`: of none).
live 50 0
  So many records are still needed: 50 of the append queue and none of the rewrite queue.

The bytes of entries are looked at in the last rewrite file alone; by raftlog check in all files.";

/// What `dump --help` prints below the options.
const DUMP_HELP: &str = "\
`entries 3..7` are those with the indexes 3 to 6, as --from 3 --to 7 selects them (with --json: first
3, last 6). --from and --to select among entries alone, and other items are printed as without them.
Values and entries are printed in quotes where all is printable ASCII and no quote, else as 0x and
hex digits.

Numbers of files that are missing, bytes at which no batch can be read, and with --values entries
that can't be, have a line of their own, and the status is then 1. So it is where nothing is printed
of a --region. Without --values the bytes of entries aren't looked at: the status may be 0 where
some can't be read. raftlog check names all of these.";

/// What `files --help` prints below the options.
const FILES_HELP: &str = "\
Of each file: its bytes, how much of it are bytes of entries that are live (items, keys, values and
headers aren't counted), and the regions whose oldest file it is. A file can go once it is the
oldest one of no region, and no older one is left.

The picture of --svg is written to a file that isn't there yet; one that is there stays as it is,
and the status is 1.

The bytes of entries are looked at in the last rewrite file alone; by raftlog check in all files.";

/// What `cut --help` prints below the options.
const CUT_HELP: &str = "\
What is cut off from a file is kept beside it, as NUMBER.raftlog.OFFSET.cut or
NUMBER.rewrite.OFFSET.cut, and where one is there, with other bytes, as NUMBER.raftlog.OFFSET.2.cut.
An engine that is opened over the folder does the same. No command deletes these files. --yes makes
a file LOCK in the folder, and leaves it there.

Where the files are refused, the status is 1, and nothing is cut. Where a line on standard error says
why it isn't done to its end, the status is 1 too. With --yes something may be cut then, also where
only the output failed: look by raftlog check.";

/// What `recover --help` prints below the options.
const RECOVER_HELP: &str = "\
Files that are refused are refused in a word. Which file it is, where in it and why, and both queues
together: raftlog check (or regions) --append SEQ=PATH ..
Status: 0 the lines are printed; 1 it is refused; 2 the words aren't these.";

/// What `batch --help` prints below the options.
const BATCH_HELP: &str = "\
An item batch is a batch without its header and its entries. Whole files: raftlog dump --append SEQ=PATH ..
Status: 0 the lines are printed; 1 it is refused; 2 the words aren't these.";

/// How a word of a command is given: as an option with a name, or by its position.
enum Kind {
    /// By its position; it may be left out.
    Optional,
    /// By its position; it has to be there.
    Needed,
    /// By its position, once or more.
    Rest,
    /// An option without a value, as `--json`.
    Flag,
    /// An option with a text after it.
    Text,
    /// An option with a text after it, as often as is wanted.
    Texts,
    /// An option with a number of 64 bits after it.
    Number,
    /// An option with a number after it, from 1 to this one.
    UpTo(i64),
}

/// A word of a command: an option, or what is given by its position.
struct Word {
    /// Its name: for an option what follows `--`.
    name: &'static str,
    /// What stands for its value in the help.
    value: &'static str,
    /// How it is given.
    kind: Kind,
    /// What the help says of it.
    help: &'static str,
}

/// A command, with its words and its help.
struct CommandWords {
    /// The name of the command.
    name: &'static str,
    /// What the list of commands says of it.
    about: &'static str,
    /// Its words, in the order of the help.
    words: &'static [&'static Word],
    /// What its own help prints below the options.
    after: &'static str,
}

/// The folder of the commands that may also be given single files.
const FOLDER: Word = Word {
    name: "folder",
    value: "FOLDER",
    kind: Kind::Optional,
    help: "The folder with the files of both queues",
};

/// The folder of `cut`, which takes no single files.
const CUT_FOLDER: Word = Word {
    name: "folder",
    value: "FOLDER",
    kind: Kind::Needed,
    help: "The folder with the files of both queues",
};

/// A single file of the append queue.
const APPEND: Word = Word {
    name: "append",
    value: "SEQ=PATH",
    kind: Kind::Texts,
    help: "A file of the append queue: its number and its path; may be repeated, by rising numbers",
};

/// A single file of the rewrite queue.
const REWRITE: Word = Word {
    name: "rewrite",
    value: "SEQ=PATH",
    kind: Kind::Texts,
    help: "A file of the rewrite queue: its number and its path; may be repeated, by rising numbers",
};

/// The option to print lines of JSON.
const JSON: Word = Word {
    name: "json",
    value: "",
    kind: Kind::Flag,
    help: "Prints lines of JSON",
};

/// The format version of all files.
const FORMAT: Word = Word {
    name: "format",
    value: "VERSION",
    kind: Kind::UpTo(2),
    help: "The format version of the files: 1 or 2; 2 if left out",
};

/// The greatest number of threads.
const WORKERS: Word = Word {
    name: "workers",
    value: "COUNT",
    kind: Kind::UpTo(256),
    help: "How many threads recover the tables at most: 1 to 256; as many as there are processors if left out",
};

/// The only region that is printed.
const REGION: Word = Word {
    name: "region",
    value: "REGION",
    kind: Kind::Number,
    help: "Prints this region alone; regions prints it with its keys",
};

/// The first index of the entries that are printed.
const FROM: Word = Word {
    name: "from",
    value: "INDEX",
    kind: Kind::Number,
    help: "Prints entries from this index on",
};

/// The index after the last one of the entries that are printed.
const TO: Word = Word {
    name: "to",
    value: "INDEX",
    kind: Kind::Number,
    help: "Prints entries below this index, without the one that has it",
};

/// The option to print values, and the bytes of entries.
const VALUES: Word = Word {
    name: "values",
    value: "",
    kind: Kind::Flag,
    help: "Prints values too; dump also the bytes of entries",
};

/// The path at which a picture is written.
const PICTURE: Word = Word {
    name: "svg",
    value: "FILE",
    kind: Kind::Text,
    help: "Draws them as a picture in SVG, which is written to this new file",
};

/// The option of `cut` to change nothing.
const DRY_RUN: Word = Word {
    name: "dry-run",
    value: "",
    kind: Kind::Flag,
    help: "Changes nothing, and says what would be cut off",
};

/// The option of `cut` without which it cuts nothing off.
const YES: Word = Word {
    name: "yes",
    value: "",
    kind: Kind::Flag,
    help: "Cuts it off",
};

/// The queue of `recover` and `batch`.
const QUEUE: Word = Word {
    name: "queue",
    value: "queue",
    kind: Kind::Needed,
    help: "append or rewrite: to which of the two it belongs",
};

/// The file number of `batch`.
const SEQ: Word = Word {
    name: "seq",
    value: "seq",
    kind: Kind::Needed,
    help: "The number of the file",
};

/// The format version of `recover` and `batch`.
const VERSION_WORD: Word = Word {
    name: "version",
    value: "version",
    kind: Kind::Needed,
    help: "1 or 2: the format version",
};

/// The greatest number of threads of `recover`.
const WORKERS_WORD: Word = Word {
    name: "workers",
    value: "workers",
    kind: Kind::Needed,
    help: "1 to 256: how many threads read the files at most",
};

/// The files of `recover`.
const FILES_WORD: Word = Word {
    name: "seq=path",
    value: "seq=path",
    kind: Kind::Rest,
    help: "The number of a file and its path; files are given by rising numbers",
};

/// The commands, in the order of the help. `recover` and `batch` are here for their help alone: their words are parsed elsewhere.
const COMMANDS: [CommandWords; 7] = [
    CommandWords {
        name: "check",
        about: "Says of each file what can't be read, and what an opening would do",
        words: &[&FOLDER, &APPEND, &REWRITE, &JSON, &FORMAT, &WORKERS],
        after: CHECK_HELP,
    },
    CommandWords {
        name: "regions",
        about: "Prints the tables that an engine would have which is opened over the files",
        words: &[
            &FOLDER, &REGION, &VALUES, &APPEND, &REWRITE, &JSON, &FORMAT, &WORKERS,
        ],
        after: REGIONS_HELP,
    },
    CommandWords {
        name: "dump",
        about: "Prints the batches of the files, item by item",
        words: &[
            &FOLDER, &REGION, &FROM, &TO, &VALUES, &APPEND, &REWRITE, &JSON, &FORMAT,
        ],
        after: DUMP_HELP,
    },
    CommandWords {
        name: "files",
        about: "Prints how much of each file is live, and which regions hold it",
        words: &[
            &FOLDER, &PICTURE, &APPEND, &REWRITE, &JSON, &FORMAT, &WORKERS,
        ],
        after: FILES_HELP,
    },
    CommandWords {
        name: "cut",
        about: "Cuts off what an opening would cut off, and keeps it in files beside",
        words: &[&CUT_FOLDER, &DRY_RUN, &YES, &JSON, &FORMAT, &WORKERS],
        after: CUT_HELP,
    },
    CommandWords {
        name: "recover",
        about: "Prints the tables that files of one queue give, which are named one by one",
        words: &[&QUEUE, &VERSION_WORD, &WORKERS_WORD, &FILES_WORD],
        after: RECOVER_HELP,
    },
    CommandWords {
        name: "batch",
        about: "Prints the items of an item batch, which it reads from standard input",
        words: &[&QUEUE, &SEQ, &VERSION_WORD],
        after: BATCH_HELP,
    },
];

/// Returns the parser of the command line, with all commands.
///
/// # Errors
///
/// Fails only if there is no memory.
pub(crate) fn parser_of_commands<'a>(alloc: Global) -> AllocResult<Command<'a>> {
    let mut command = Command::new(alloc, "raftlog")
        .bin_name("raftlog")?
        .about("Looks into the log files of an engine")
        .version(VERSION)
        .propagate_version(true)
        .no_binary_name(true)
        .subcommand_required(true)
        .after_help(AFTER_HELP);
    for words in &COMMANDS {
        command = command.subcommand(parser_of_command(alloc, words)?)?;
    }
    Ok(command)
}

/// Returns the parser of the command that `words` describes: its name, its help, and its arguments in order.
///
/// # Errors
///
/// Fails only if there is no memory.
fn parser_of_command<'a>(alloc: Global, words: &CommandWords) -> AllocResult<Command<'a>> {
    let mut command = Command::new(alloc, words.name)
        .about(words.about)
        .after_help(words.after);
    for word in words.words {
        command = command.arg(parser_of_word(alloc, word))?;
    }
    Ok(command)
}

/// Returns the parser of a word, by how the word is given.
fn parser_of_word<'a>(alloc: Global, word: &Word) -> Arg<'a> {
    let arg = Arg::new(alloc, word.name).help(word.help);
    match word.kind {
        Kind::Optional => arg.value_name(word.value),
        Kind::Needed => arg.value_name(word.value).required(true),
        Kind::Rest => arg
            .value_name(word.value)
            .required(true)
            .action(ArgAction::Append),
        Kind::Flag => arg.long(word.name).action(ArgAction::SetTrue),
        Kind::Text => arg.long(word.name).value_name(word.value),
        Kind::Texts => arg
            .long(word.name)
            .value_name(word.value)
            .action(ArgAction::Append),
        Kind::Number => arg
            .long(word.name)
            .value_name(word.value)
            .value_parser(value_parser!(u64))
            .allow_negative_numbers(true), // they are refused as numbers, not as options
        Kind::UpTo(most) => arg
            .long(word.name)
            .value_name(word.value)
            .value_parser(value_parser!(u64).range(1..=most)),
    }
}
