//! What the program is for, as it tells on request.

/// Its name and version.
pub const VERSION: &str = "kilntaupe 0.1.0\n";

/// Its commands, options and exit statuses.
pub const HELP: &str = "\
kilntaupe: a transactional object store with lazy class upgrades

usage: kilntaupe COMMAND [OPTION..] < SCRIPT

commands:
  check     tells whether the script breaks a rule: `ok`, or its first line at fault
  play      runs the script, one event of its schedule after the other, and writes a report
  run       runs the script's items with a thread for each client, without its schedule but for
            the restarts, and writes a report
  gen N     runs a generated script (a bank under load, N from 1 to 1000, with 100 items
            for each) and writes a summary in the place of a report; reads no script
  audit     reads a script, one byte 30 and a report, which may come from anyone, and tells whether the
            report is true of the script: `legal`, or its first line that isn't

options, each at most once, as `--name value` or `--name=value`:
  --repos N     repositories, 1 to 8 (without it 1)
for all but audit:
  --store DIR   keeps the store in files of this folder, which has to be there;
                without it the store is in memory and gone at the end
for play, run and gen alone:
  --tries N     tries that an item has, 1 to 100 (without it 16)
  --mob N       bytes of a repository's buffer, 1 to 16777216 (without it 1048576)
  --cache N     pages of a client's cache, 1 to 4096 (without it 64); 4096 take up to 64 MB for each
                client, and a repository holds up to 4096 pages in memory as well

  --help        writes this text
  --version     writes the version

exit status:
  0  done: but for check and audit, every item is done or ended in a fault
  1  an item was refused, or what became of it isn't known
  2  the words are not a command           output: words
  3  the script is refused                 output: script LINE RULE
  4  standard input failed                 output: source
  5  standard output failed
  6  a disk failed as the store was opened output: disk REPOSITORY
  7  the files are no store                output: damaged REPOSITORY FILE PLACE
  8  a limit is passed                     output: limit NUMBER
  9  memory was not there, or the run failed its own check
 10  what is to be audited is no report    output: report LINE
 11  the report isn't true of the script   output: entry LINE or item LINE
  126, 127  of the launcher: a build failed; the toolchain isn't there

variables of the launcher in a checkout, which builds the program:
  KILNTAUPE_PROVE=0  leaves off the proofs, which are made in the background otherwise, niced, with
                     one job, where 6 GB of memory are free
  KILNTAUPE_WAIT=1   waits for the proved program, and tells how far it is

`tools/why FILE` says where a script is refused, and why; `tools/audit SCRIPT REPORT` audits two files
and says what disagrees.
The language of scripts is in docs/LANGUAGE.md, the report in docs/REPORT.md, and README.md
has a first script.
";
