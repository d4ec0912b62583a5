//! The command line as clap is told of it, with what help says.
ghost use Rattle.std.specs.Prelude.{◌≡◌, IfOk, codes, false};
ghost use Rattle.clap.specs.Words.{App, Rule, new_app, rule_of, with_rule, with_subcommand};
ghost use Rattle.options.specs.CommandLine as spec;
ghost use Rattle.options.specs.Private.Told.{IsTold};

use clap::{Arg, ArgAction, Command};
use std::alloc::{AllocError, Global};

// What help says after the options.
const AFTER_HELP: &str = "\
    Without a command, rvdap speaks the Debug Adapter Protocol (DAP): on standard\
    \ninput and output, as an editor starts it, or with --listen to editors that\
    \nconnect to ADDR, one after the other. In a terminal it waits for requests until\
    \nthe input ends (Ctrl-D). docs/PROTOCOL.md has the requests that it answers,\
    \nbyte by byte.\
    \n\
    \nWith --listen, `listening on ADDR` is written to standard error first. With\
    \n--program, FILE is read before that.\
    \n\
    \nStatus: 0 if all went well; 1 if not, with a line on standard error; and 2 if\
    \nthe words on the command line are not as above.";

// What help of `asm` says after its options.
const AFTER_HELP_OF_ASM: &str = "\
    Example:\
    \n  $ rvdap asm examples/increment.s\
    \n  00010000 00500513 addi a0, zero, 5\
    \n  00010004 00000097 auipc ra, 0x0\
    \n  ..\
    \n\
    \nEach line is an instruction: its address, its word and its text.\
    \n\
    \nErrors, as in `rvdap: FILE: line 2: OutOfRange`. One is reported at a time: that\
    \nof the first pass that finds one, on the earliest line. So `bogus` on line 4 is\
    \nreported before `j x` on line 2, where no line defines x.\
    \n\
    \nPass 0, the text as a whole:\
    \n  NotUtf8             a byte that is not UTF-8: save the file as UTF-8\
    \nPass 1, each line by itself:\
    \n  Syntax              not labels and then one statement: look at its colons and\
    \n                      commas\
    \n  UnknownInstruction  no such mnemonic or directive: look at its spelling\
    \n  BadOperand          too few, too many or of another form: look at registers,\
    \n                      immediates and brackets\
    \n  OutOfRange          a number is too large or too small for its place\
    \nPass 2, each line at its address:\
    \n  TwiceDefined        an earlier label has this name: rename one of them\
    \n  OutOfRange          an instruction or _start is not at a multiple of 4: put\
    \n                      `.align 2` after the data before it\
    \n  TooLarge            memory (1 MiB) ends before this line: look at `.space`\
    \nPass 3, each line with its labels:\
    \n  Undefined           no line defines this label: look at its spelling\
    \n  OutOfRange          a branch or a jump does not reach its target, or that is\
    \n                      an odd address: look at how far it is\
    \n\
    \n`cannot read` in place of an error: FILE is not there, is not a file, or is too\
    \nlong. docs/MACHINE.md has the language, and examples of each error.";

// What help of `watch` says after its options.
const AFTER_HELP_OF_WATCH: &str = "\
    SCRIPT is played on a session with 1 MiB of memory and no program. Each of its\
    \nlines is an event, and the last says what is watched:\
    \n  connect        an editor connects\
    \n  send JSON      a message with this body comes, in one piece\
    \n  bytes HEX      these bytes come, in one piece\
    \n  turn           a request is answered, with no file\
    \n  turn FILE      the same, with what FILE holds\
    \n  slice N        the program is given time for N moves\
    \n  hold           the program is to stand still\
    \n  sent N         N of the waiting bytes were sent\
    \n  drop           the connection ends\
    \n  watch C N      the first N bytes for the connection C are watched\
    \n  watch C all    all of them are\
    \n\
    \nA line is printed for each fact that is known then: its name, what the editor\
    \nknows by the bytes that it got, and what was so when they were written, or `-`.\
    \n\
    \n`rvdap: SCRIPT: line K`: line K is the first that is no such line. `cannot read`\
    \nin place of that: SCRIPT is not there, is not a file, or is too long.";

// What help of `replay` says after its options.
const AFTER_HELP_OF_REPLAY: &str = "\
    Example:\
    \n  $ rvdap --record session < requests > answers\
    \n  $ rvdap replay session/session.watch\
    \n  1 connection 1\
    \n  2 -> {\"seq\":1,\"type\":\"request\",\"command\":\"initialize\",..\
    \n  ..\
    \n\
    \nEach line begins with the number of an event, which is that of its line in\
    \nSCRIPT: `->` is a request that came with it, `<-` a message that was queued.\
    \n\
    \nSCRIPT is as `rvdap watch --help` says; its last line may be absent, as where\
    \nrvdap was killed. `rvdap: SCRIPT: line K`: line K is the first that is wrong.";

// What help of `run` says after its options.
const AFTER_HELP_OF_RUN: &str = "\
    Example:\
    \n  $ rvdap run examples/sort.s\
    \n  10\
    \n  20\
    \n  ..\
    \n\
    \nA number that the program prints is a line on standard output. Lines are written\
    \nafter each 100,000 instructions, and at the end. Several FILEs are one program,\
    \nof which each begins on a line of its own.\
    \n\
    \nStatus: the program's exit code, modulo 256. Where it does not end by itself,\
    \nlines on standard error begin with FILE and say what was wrong; the status is\
    \n  121  where it printed more than BYTES bytes\
    \n  122  at an ebreak\
    \n  123  where an instruction trapped\
    \n  124  where N instructions ran\
    \n  125  where FILE does not assemble\
    \nand 1, with a line that begins with rvdap, where FILE cannot be read, standard\
    \noutput failed or no memory was left.";

// What help of `debug` says after its options.
const AFTER_HELP_OF_DEBUG: &str = "\
    Example:\
    \n  $ rvdap debug examples/sort.s\
    \n  ..\
    \n  (rvdap) break 36\
    \n  ..\
    \n\
    \n`help` lists the commands; those that gdb has mean the same here. SCRIPT is a\
    \nfile of commands, one on a line, which are played first.\
    \n\
    \nIn a terminal, Enter pauses a program that runs. Where standard input is no\
    \nterminal, commands are read from it line by line, and each is repeated after its\
    \nprompt. The end of the input ends rvdap, as `quit` does.\
    \n\
    \nStatus: 0; 1 where FILE or SCRIPT cannot be read, FILE does not assemble, a\
    \ncommand that was not typed in a terminal was refused, standard output failed or\
    \nno memory was left; and 2 if the words on the command line are not as above.";

// What help of `check` says after its options.
const AFTER_HELP_OF_CHECK: &str = "\
    Example:\
    \n  $ rvdap check examples/*.s\
    \n  examples/undefined-label.s:4:10: error: Undefined: no line defines g\
    \n      call g\
    \n\
    \n`rvdap asm --help` says what the errors are. The memory is 1 MiB.\
    \n\
    \nStatus: 0 if no FILE has an error, 1 if one has, or cannot be read.";

// What help of `labels` says after its options.
const AFTER_HELP_OF_LABELS: &str = "\
    Example:\
    \n  $ rvdap labels examples/sort.s\
    \n  00010000 code 3  _start\
    \n  ..\
    \n\
    \nEach line is a label, in the order of the text: its address, what stands there,\
    \nand its name. What stands there is code with its line, data, or the end of all.";

// What help of `convert` says after its options.
const AFTER_HELP_OF_CONVERT: &str = "\
    FILE is a program as RARS, Venus or GNU as have it. It is written to standard\
    \noutput line by line: a line that can stand stays as it is, and one that cannot is\
    \nrewritten, with its old text as a comment after it. A FILE that assembles stays\
    \nas it is, byte for byte.\
    \n\
    \nWhat cannot be said here, as `mul`, is told on standard error with its line and\
    \nwhat to do instead; so is what is done otherwise, as a note.\
    \n\
    \nStatus: 0, or 1 where something cannot be said, or FILE cannot be read.";

/// The command line as clap is told of it.
pub(crate) fn command<'a>(alloc: Global) -> Result<Command<'a>, AllocError>
    ensures { IfOk result (IsTold spec.command_line) }
{
    let command = with_options(alloc);
    let command = added(command, asm(alloc));
    let command = added(command, watch(alloc));
    let command = added(command, run(alloc));
    let command = added(command, check(alloc));
    let command = added(command, labels(alloc));
    let command = added(command, convert(alloc));
    let command = added(command, replay(alloc));
    added(command, debug(alloc))
}

// A command that is told of another. What was made before memory ran out is dropped here, and in `told`.
fn added<'a>(
    above: Result<Command<'a>, AllocError>,
    below: Result<Command<'a>, AllocError>,
) -> Result<Command<'a>, AllocError>
    ensures { (app sub : App) → IfOk above.entry (IsTold app) → IfOk below.entry (IsTold sub)
        → IfOk result (IsTold (with_subcommand app sub.top)) }
{
    match below {
        Ok(below) => match above {
            Ok(above) => above.subcommand(below),
            Err(error) => {
                drop(below);
                Err(error)
            }
        },
        Err(error) => {
            drop(above);
            Err(error)
        }
    }
}

// A command that is told of an option, or of a word.
fn told<'a>(
    command: Result<Command<'a>, AllocError>,
    arg: Arg<'a>,
) -> Result<Command<'a>, AllocError>
    requires { arg.global ≡ false }
    ensures { (app : App) (rule : Rule) → IfOk command.entry (IsTold app)
        → rule_of arg.entry ≡ rule → IfOk result (IsTold (with_rule app rule)) }
{
    match command {
        Ok(command) => command.arg(arg),
        Err(error) => {
            drop(arg);
            Err(error)
        }
    }
}

// Told of its options.
fn with_options<'a>(alloc: Global) -> Result<Command<'a>, AllocError>
    ensures { IfOk result (IsTold spec.with_options) }
{
    let command = Ok(plain(alloc));
    let command = told(command, memory(alloc));
    let command = told(command, listen(alloc));
    let command = told(command, program(alloc));
    let command = told(command, once(alloc));
    let command = told(command, verbose(alloc));
    told(command, record(alloc))
}

// The command, before it is told of options.
fn plain<'a>(alloc: Global) -> Command<'a>
    ensures { IsTold spec.plain result }
{
    Command::new(alloc, "rvdap")
        .version("0.1.0")
        .about("A debug adapter for assembly programs on one simulated RISC-V hart")
        .override_usage(
            "rvdap [--memory <KIB>] [--verbose] [--record <FOLDER>]\n       \
             rvdap --listen <ADDR> [--program <FILE>] [--once] [--memory <KIB>]\n                 \
             [--verbose] [--record <FOLDER>]\n       \
             rvdap run [--memory <KIB>] [--limit <N>] [--output-limit <BYTES>]\n                 \
             [--count] [--registers] [--trace <N>] <FILE>..\n       \
             rvdap debug [--memory <KIB>] [-x <SCRIPT>] <FILE>\n       \
             rvdap check [--json] <FILE>..\n       \
             rvdap labels [--json] <FILE>\n       \
             rvdap convert <FILE>\n       \
             rvdap asm <FILE>\n       \
             rvdap watch <SCRIPT> [<C> [<N>]]\n       \
             rvdap replay [--from <N>] [--to <N>] [--facts] <SCRIPT>",
        )
        .after_help(AFTER_HELP)
        .no_binary_name(true)
        .disable_help_subcommand(true)
}

// A command of this name, with what help says of it.
fn described<'a>(
    alloc: Global,
    name: &'a str,
    about: &'a str,
    usage: &'a str,
    after_help: &'a str,
) -> Command<'a>
    ensures { IsTold (new_app name.entry.now) result }
{
    Command::new(alloc, name)
        .about(about)
        .override_usage(usage)
        .after_help(after_help)
}

fn memory<'a>(alloc: Global) -> Arg<'a>
    ensures rule { rule_of result ≡ spec.option (codes "memory") }
    ensures local { result.global ≡ false }
{
    Arg::new(alloc, "memory")
        .long("memory")
        .value_name("KIB")
        .help(
            "Memory of a program, in KiB: a multiple of 4\nfrom 4 to 16384; 1024 if it is not given",
        )
}

fn listen<'a>(alloc: Global) -> Arg<'a>
    ensures rule { rule_of result ≡ spec.option (codes "listen") }
    ensures local { result.global ≡ false }
{
    Arg::new(alloc, "listen")
        .long("listen")
        .value_name("ADDR")
        .help(
            "Serve editors over TCP: the address to listen on, as\n127.0.0.1:4711; with port 0 any port that is free",
        )
}

fn program<'a>(alloc: Global) -> Arg<'a>
    ensures rule { rule_of result ≡ spec.option (codes "program") }
    ensures local { result.global ≡ false }
{
    Arg::new(alloc, "program")
        .long("program")
        .value_name("FILE")
        .help(
            "With --listen: a text of assembly, the program whose\nmachine an editor joins by `attach`",
        )
}

fn once<'a>(alloc: Global) -> Arg<'a>
    ensures rule { rule_of result ≡ spec.flag (codes "once") }
    ensures local { result.global ≡ false }
{
    Arg::new(alloc, "once")
        .long("once")
        .action(ArgAction::SetTrue)
        .help("With --listen: end after the first connection")
}

fn verbose<'a>(alloc: Global) -> Arg<'a>
    ensures rule { rule_of result ≡ spec.flag (codes "verbose") }
    ensures local { result.global ≡ false }
{
    Arg::new(alloc, "verbose")
        .long("verbose")
        .action(ArgAction::SetTrue)
        .help(
            "Say on standard error what closed a connection, why a\nrequest was refused, and where editors connect",
        )
}

fn record<'a>(alloc: Global) -> Arg<'a>
    ensures rule { rule_of result ≡ spec.option (codes "record") }
    ensures local { result.global ≡ false }
{
    Arg::new(alloc, "record")
        .long("record")
        .value_name("FOLDER")
        .help(
            "Record the session in FOLDER, which is made, or is\nempty: for watch and replay, and a report",
        )
}

fn asm<'a>(alloc: Global) -> Result<Command<'a>, AllocError>
    ensures { IfOk result (IsTold (spec.with_file (codes "asm") (codes "FILE"))) }
{
    let command = described(
        alloc,
        "asm",
        "Assembles FILE and lists its instructions",
        "rvdap asm <FILE>",
        AFTER_HELP_OF_ASM,
    );
    let text = file(
        alloc,
        "FILE",
        "A text of assembly, of at most 1,048,576 bytes",
    );
    told(Ok(command), text)
}

fn watch<'a>(alloc: Global) -> Result<Command<'a>, AllocError>
    ensures { IfOk result (IsTold spec.watch) }
{
    let command = described(
        alloc,
        "watch",
        "Plays SCRIPT and prints what an editor knows then",
        "rvdap watch <SCRIPT> [<C> [<N>]]",
        AFTER_HELP_OF_WATCH,
    );
    let script = file(
        alloc,
        "SCRIPT",
        "Events of a session, line by line, and what is watched",
    );
    let connection = word(
        alloc,
        "C",
        "The connection that is watched, whatever SCRIPT says",
    );
    let bytes = word(
        alloc,
        "N",
        "How many bytes for it are watched; all if not given",
    );
    told(told(told(Ok(command), script), connection), bytes)
}

fn replay<'a>(alloc: Global) -> Result<Command<'a>, AllocError>
    ensures { IfOk result (IsTold spec.replay) }
{
    let command = Ok(described(
        alloc,
        "replay",
        "Plays SCRIPT and prints the conversation",
        "rvdap replay [--from <N>] [--to <N>] [--facts] <SCRIPT>",
        AFTER_HELP_OF_REPLAY,
    ));
    let command = told(command, from(alloc));
    let command = told(command, to(alloc));
    let command = told(command, facts(alloc));
    told(
        command,
        file(alloc, "SCRIPT", "A recording, or another script of `watch`"),
    )
}

fn from<'a>(alloc: Global) -> Arg<'a>
    ensures rule { rule_of result ≡ spec.option (codes "from") }
    ensures local { result.global ≡ false }
{
    Arg::new(alloc, "from")
        .long("from")
        .value_name("N")
        .help("Tell what comes from event N on")
}

fn to<'a>(alloc: Global) -> Arg<'a>
    ensures rule { rule_of result ≡ spec.option (codes "to") }
    ensures local { result.global ≡ false }
{
    Arg::new(alloc, "to")
        .long("to")
        .value_name("N")
        .help("Tell what comes up to event N")
}

fn facts<'a>(alloc: Global) -> Arg<'a>
    ensures rule { rule_of result ≡ spec.flag (codes "facts") }
    ensures local { result.global ≡ false }
{
    Arg::new(alloc, "facts")
        .long("facts")
        .action(ArgAction::SetTrue)
        .help("Tell after each message what an editor knows then")
}

// A word after the file of a command, which may be there.
fn word<'a>(alloc: Global, id: &'a str, help: &'a str) -> Arg<'a>
    ensures rule { rule_of result ≡ spec.word id.entry.now }
    ensures local { result.global ≡ false }
{
    Arg::new(alloc, id).help(help)
}

fn run<'a>(alloc: Global) -> Result<Command<'a>, AllocError>
    ensures { IfOk result (IsTold spec.run) }
{
    let command = told(run_of_a_machine(alloc), count(alloc));
    let command = told(command, registers(alloc));
    let command = told(command, trace(alloc));
    let texts = files(
        alloc,
        "Texts of assembly, one after the other, of at most\n1,048,576 bytes together",
    );
    told(command, texts)
}

// `run`, told of the options that are about the machine.
fn run_of_a_machine<'a>(alloc: Global) -> Result<Command<'a>, AllocError>
    ensures { IfOk result (IsTold spec.run_of_a_machine) }
{
    let command = Ok(described(
        alloc,
        "run",
        "Runs the program in FILE",
        "rvdap run [--memory <KIB>] [--limit <N>] [--output-limit <BYTES>]\n          \
         [--count] [--registers] [--trace <N>] <FILE>..",
        AFTER_HELP_OF_RUN,
    ));
    let command = told(command, memory(alloc));
    let command = told(command, limit(alloc));
    told(command, output_limit(alloc))
}

fn debug<'a>(alloc: Global) -> Result<Command<'a>, AllocError>
    ensures { IfOk result (IsTold spec.debug) }
{
    let command = Ok(described(
        alloc,
        "debug",
        "Debugs the program in FILE at a prompt",
        "rvdap debug [--memory <KIB>] [-x <SCRIPT>] <FILE>",
        AFTER_HELP_OF_DEBUG,
    ));
    let command = told(command, memory(alloc));
    let command = told(command, commands(alloc));
    let text = file(
        alloc,
        "FILE",
        "A text of assembly, of at most 1,048,576 bytes",
    );
    told(command, text)
}

fn commands<'a>(alloc: Global) -> Arg<'a>
    ensures rule { rule_of result ≡ spec.lettered (codes "commands") 120 }
    ensures local { result.global ≡ false }
{
    Arg::new(alloc, "commands")
        .short('x')
        .long("commands")
        .value_name("SCRIPT")
        .help("Play the commands in SCRIPT first, line by line")
}

fn limit<'a>(alloc: Global) -> Arg<'a>
    ensures rule { rule_of result ≡ spec.option (codes "limit") }
    ensures local { result.global ≡ false }
{
    Arg::new(alloc, "limit")
        .long("limit")
        .value_name("N")
        .help("Run at most N instructions, up to 4294967295")
}

fn output_limit<'a>(alloc: Global) -> Arg<'a>
    ensures rule { rule_of result ≡ spec.option (codes "output-limit") }
    ensures local { result.global ≡ false }
{
    Arg::new(alloc, "output-limit")
        .long("output-limit")
        .value_name("BYTES")
        .help(
            "Write at most so many bytes of what is printed,\nup to 4294967295, and end where there is more",
        )
}

fn registers<'a>(alloc: Global) -> Arg<'a>
    ensures rule { rule_of result ≡ spec.flag (codes "registers") }
    ensures local { result.global ≡ false }
{
    Arg::new(alloc, "registers")
        .long("registers")
        .action(ArgAction::SetTrue)
        .help("Tell pc and the registers at the end, on\nstandard error")
}

fn trace<'a>(alloc: Global) -> Arg<'a>
    ensures rule { rule_of result ≡ spec.option (codes "trace") }
    ensures local { result.global ≡ false }
{
    Arg::new(alloc, "trace").long("trace").value_name("N").help(
        "Tell the last N instructions that retired, at\nmost 65536, and what each did, on standard error",
    )
}

fn count<'a>(alloc: Global) -> Arg<'a>
    ensures rule { rule_of result ≡ spec.flag (codes "count") }
    ensures local { result.global ≡ false }
{
    Arg::new(alloc, "count")
        .long("count")
        .action(ArgAction::SetTrue)
        .help("Say on standard error how many instructions\nretired")
}

fn check<'a>(alloc: Global) -> Result<Command<'a>, AllocError>
    ensures { IfOk result (IsTold spec.check) }
{
    let command = Ok(described(
        alloc,
        "check",
        "Tells the errors of each FILE, and what to write instead",
        "rvdap check [--json] <FILE>..",
        AFTER_HELP_OF_CHECK,
    ));
    let command = told(command, json(alloc));
    told(
        command,
        files(alloc, "Texts of assembly, each of at most 1,048,576 bytes"),
    )
}

fn labels<'a>(alloc: Global) -> Result<Command<'a>, AllocError>
    ensures { IfOk result (IsTold spec.labels) }
{
    let command = Ok(described(
        alloc,
        "labels",
        "Tells the labels of FILE",
        "rvdap labels [--json] <FILE>",
        AFTER_HELP_OF_LABELS,
    ));
    let command = told(command, json(alloc));
    let text = file(
        alloc,
        "FILE",
        "A text of assembly, of at most 1,048,576 bytes",
    );
    told(command, text)
}

fn convert<'a>(alloc: Global) -> Result<Command<'a>, AllocError>
    ensures { IfOk result (IsTold (spec.with_file (codes "convert") (codes "FILE"))) }
{
    let command = described(
        alloc,
        "convert",
        "Writes the program in FILE as this assembler takes it",
        "rvdap convert <FILE>",
        AFTER_HELP_OF_CONVERT,
    );
    let text = file(
        alloc,
        "FILE",
        "A text of assembly, of at most 1,048,576 bytes",
    );
    told(Ok(command), text)
}

fn json<'a>(alloc: Global) -> Arg<'a>
    ensures rule { rule_of result ≡ spec.flag (codes "json") }
    ensures local { result.global ≡ false }
{
    Arg::new(alloc, "json")
        .long("json")
        .action(ArgAction::SetTrue)
        .help("Write an object of JSON on each line")
}

// The files of a command, at least one.
fn files<'a>(alloc: Global, help: &'a str) -> Arg<'a>
    ensures rule { rule_of result ≡ spec.files (codes "FILE") }
    ensures local { result.global ≡ false }
{
    Arg::new(alloc, "FILE")
        .required(true)
        .num_args(1..)
        .help(help)
}

// The file of a command, which has to be there.
fn file<'a>(alloc: Global, id: &'a str, help: &'a str) -> Arg<'a>
    ensures rule { rule_of result ≡ spec.file id.entry.now }
    ensures local { result.global ≡ false }
{
    Arg::new(alloc, id).required(true).help(help)
}
