//! The words of a command line.

use crate::conform_words::conform_command;
use crate::list_words::list_command;
use crate::recording_words::{
    fcs_option, interface_option, origin_option, reorder_option, second_list,
    sited_interface_option, stamps_option,
};
use crate::solve_words::solve_command;
use clap::{Arg, ArgAction, Command, value_parser};
use std::alloc::{AllocError, Global};

const ABOUT: &str = "A proved simulator of aircraft networks (AFDX, ARINC 664 Part 7)";

/// The version of the program, and the logic that it is proved in, the last word of `rt version`.
const VERSION: &str = "0.1.0 (logic dac8208d650f15bf)";

const AFTER: &str = "\
To begin with, in the repository's folder:
  afdx check examples/network.toml
  afdx replay examples/base.toml examples/one_link.list
  afdx explain over-rate

Exit status:
  0  done
  1  the configuration is wrong, or its network isn't admitted
  2  the words of the command are wrong
  3  the list is wrong, or 'conform' could not decide
  4  a device or memory failed
  5  'conform' found that a switch deviates

Each fault is one line on standard error; 'afdx explain' says what it means. A
closed pipe is a device that failed: 'device Write', status 4.";

const POLICE_ABOUT: &str = "Polices the frames of one virtual link";

const POLICE_AFTER: &str = "\
The frames of LIST are judged for one virtual link, by default link 1, which enters
at port 1, has frames of 64 bytes or more and is policed by bytes. Each switch, A
and B, has an account of its own. A line is printed for each frame:

  V n side accept         the frame of line n was accepted
  V n side drop WORD      it was dropped; 'afdx explain --list' has each WORD

A line of LIST is 'K time side port HEX': K is F (bytes without check sequence,
which is added), B (the same with a wrong check sequence) or R (bytes as they
are); time is in ns, side A or B, port 1 to 24; HEX is '-' for no bytes. Lines
that are empty or begin with '#' are skipped.

LIST may also be a recording, pcap or pcapng, also one that is being made: n is then
the number of a frame, as Wireshark counts. What was left out of it is told by
--summary alone, in the line 'skipped ..'.

A closed pipe, as with '| head', is the fault 'device Write', status 4.

Examples:
  afdx police 1 64 500 examples/one_link.list
  afdx police --vl 501 --port 5 2 160 200 examples/bench.list";

pub const CONFIG_HELP: &str = "\
The path of a configuration (TOML), at most 4,194,304 bytes;
/dev/stdin for standard input";

const LIST_HELP: &str = "The path of a frame list or a recording (pcap), or - for \
standard input";

/// A command, as yet without words.
pub fn command<'a>(alloc: Global, name: &'a str, about: &'a str, after: &'a str) -> Command<'a> {
    Command::new(alloc, name).about(about).after_help(after)
}

/// An option without a value.
pub fn flag<'a>(alloc: Global, name: &'a str, help: &'a str) -> Arg<'a> {
    Arg::new(alloc, name)
        .long(name)
        .help(help)
        .action(ArgAction::SetTrue)
}

/// A word that has to be there.
pub fn word<'a>(alloc: Global, name: &'a str, help: &'a str) -> Arg<'a> {
    Arg::new(alloc, name).help(help).required(true)
}

/// A number, in decimal digits.
fn number<'a>(alloc: Global, name: &'a str, help: &'a str) -> Arg<'a> {
    Arg::new(alloc, name)
        .help(help)
        .value_parser(value_parser!(u64))
}

/// The option by which each line is seen at once.
pub fn line_buffered<'a>(alloc: Global) -> Arg<'a> {
    let help = "Hands the text of each line over at once, and not in large pieces";
    flag(alloc, "line-buffered", help)
}

const EXPLAIN_HELP: &str = "\
When a fault is explained, behind its one line: 'auto' is where
standard error is a terminal; where it isn't given, AFDX_EXPLAIN says
it, else 'auto'";

/// When a fault is explained; `always` is what the option alone says.
const TIMES_TO_EXPLAIN: &[&str] = &["auto", "always", "never"];

/// The option by which a fault is explained; where it isn't given, a variable may say when.
pub fn explain_option<'a>(alloc: Global) -> Arg<'a> {
    Arg::new(alloc, "explain")
        .long("explain")
        .value_name("WHEN")
        .help(EXPLAIN_HELP)
        .num_args(0..=1)
        .require_equals(true)
        .default_missing_value("always")
        .value_parser(TIMES_TO_EXPLAIN)
}

const PROGRESS_HELP: &str = "\
Says after two seconds how much was read, if standard error is a
terminal";

/// The option by which a person sees how far a run is.
pub fn progress_option<'a>(alloc: Global) -> Arg<'a> {
    flag(alloc, "progress", PROGRESS_HELP)
}

/// The option by which the counts of a run are printed.
pub fn summary_option<'a>(alloc: Global) -> Arg<'a> {
    let help = "Prints the counts of the run on standard error, once it is done";
    flag(alloc, "summary", help)
}

const CHECK_ABOUT: &str = "Says whether a network is sure to keep its latencies";

const CHECK_AFTER: &str = "\
For each port of the switch that has a system, ascending, a line is printed:

  P port high low buffer

high and low are the longest that a frame of that priority takes through the
port, in ns ('-' where the high links leave nothing of the line), buffer the
bytes of buffer that the port needs. Then comes 'ok', or 'no' with the first of
these lines that is false:

  A1 port            the links to the port send no more than its line carries
  A2 port needed     the port's buffer holds all that may wait there
  A3 port vl bound   each high link's latency is at least the bound of the port
  A4 port vl bound   each low link's latency is at least the bound of the port
  A5 system ns       the jitter at a system's output is at most 500 us
  A6 vl needed       a link's jitter is at least that of its sender's output
  A7 vl              a link's latency is at most its skew

The last number of A2 is in bytes, those of A3 to A6 are in ns. Ports come first, A1
to A4 at each; then systems, then links in the file's order. With --all comes a 'no'
for each line that is false, in that order; the bound of A4 is '-' where the high
links leave nothing of the line. With --margins comes behind the line of a port, for
each link that goes there, in the order of the file:

  m port vl bound latency

bound is that of the link's priority at the port, latency its own, both in ns. And
behind 'ok' comes for each link, in that order,

  apart vl ns        by how many ns later one copy of a frame may be sent than the
                     other, so that each system that gets it takes it for a copy

CONFIG may describe several switches a side. A line 'S SWITCH' then stands before the
lines of each one's ports, also of those with a neighbour. Behind all of them comes for
each link and each system that it goes to

  E vl system ns     the latencies on its way there, in ns, '-' where it is broken

A1 to A7 have the switch's name behind them, as in 'no A2 aft 3 254'. There are five
more, of links between switches, whose numbers are in us:

  B1 switch vl            the link comes there from a neighbour that sends it
  B2 switch vl            its gap, lengths and policing are as at the switch before
  B3 switch vl needed     its jitter covers jitter and latency at the one before
  B4 switch vl needed     to a system its skew is at least all latencies on its way
  B5 switch vl neighbour  each neighbour that it goes to has a row of it

A closed pipe, as with '| head', is the fault 'device Write', status 4.

Example:
  afdx check examples/network.toml";

const MARGINS_HELP: &str = "\
Prints of each link at each port the bound there and its latency, and
how far apart the copies of its frames may be sent";

fn check_command<'a>(alloc: Global) -> Result<Command<'a>, AllocError> {
    let words = vec![in alloc;
        flag(
            alloc,
            "all",
            "Prints each line that is false, and not the first alone"
        ),
        flag(alloc, "margins", MARGINS_HELP),
        explain_option(alloc),
        word(alloc, "CONFIG", CONFIG_HELP),
    ]?;
    command(alloc, "check", CHECK_ABOUT, CHECK_AFTER).args(words)
}

const REPLAY_ABOUT: &str = "Replays a list of frames through the switches to the systems";

const REPLAY_AFTER: &str = "\
A line is printed for each event, in the order of time:

  V n side accept         the frame of line n was accepted
  V n side drop WORD      it was dropped; 'afdx explain --list' has each WORD
  L n side port           its copy for this output port was lost: no room
  D n time side port      its copy left this output port
  T n time side port      its copy was dropped there: it had waited too long
  M time system vl HEX    the system delivered this message
  X time system n WORD    the system dropped the frame of line n;
                          'afdx explain --list' has each WORD

At one time the frames that leave come first, side A before B, then by port; then
the frames that arrive, line by line; then those that are dropped as too old.
LIST is as for 'police', a list or a recording, of which --summary alone tells what
was left out, in the line 'skipped ..'. The tables of CONFIG have to be admitted, as
'check' says, but for the option --no-admission.

With a second LIST the first is the recording of network A, the second that of network
B, and both are read at once. n is then a number of the side's own recording; in an X
line, of that of the D line before it. --interface K=A.. is about interface K of the
first, K=B.. of the second, K=- of both.

CONFIG may describe several switches a side. The name of one then stands behind each
side, in LIST and in all lines, as in 'V 1 A fwd accept': a place of two words. What
leaves at a port with a cable arrives at its other end at that time, before the frames
of LIST, with the same n. --interface '0=A fwd:1' says that interface 0 was at port 1 of
fwd, '0=A fwd' that it was at fwd: what came there over a cable is left out.

A closed pipe, as with '| head', is the fault 'device Write', status 4.

Example:
  afdx replay examples/network.toml examples/bench.list";

const FREELY_HELP: &str = "Replays also in tables that are not admitted";

const EARLY_HELP: &str = "\
Prints on standard error, for each frame that was dropped as over-rate,
'early n NS': it came NS ns too early; of several switches
'early n side SWITCH NS'";

fn replay_command<'a>(alloc: Global) -> Result<Command<'a>, AllocError> {
    let words = vec![in alloc;
        flag(alloc, "no-admission", FREELY_HELP),
        flag(alloc, "explain-drops", EARLY_HELP),
        sited_interface_option(alloc),
        fcs_option(alloc),
        origin_option(alloc),
        reorder_option(alloc),
        stamps_option(alloc),
        explain_option(alloc),
        line_buffered(alloc),
        progress_option(alloc),
        summary_option(alloc),
        word(alloc, "CONFIG", CONFIG_HELP),
        word(alloc, "LIST", LIST_HELP),
        second_list(alloc),
    ]?;
    command(alloc, "replay", REPLAY_ABOUT, REPLAY_AFTER).args(words)
}

const SEND_ABOUT: &str = "Sends the messages of a list from one system, as a list for replay";

const SEND_AFTER: &str = "\
A line of SUBMISSIONS is 'time vl sub udp HEX': at that time, in ns, a message is
handed over for sub-VL sub, from 1 on, of link vl; it goes to UDP port udp. Lines
that are empty or begin with '#' are skipped. Each link releases one message in
each gap, round robin over its sub-VLs; what is released leaves through the
system's one port. Two lines are printed for each frame, when its slot ends, one
for each network; they are lines of a list that 'replay' reads:

  R time A port HEX       the frame for side A, at the system's switch port
  R time B port HEX       the frame for side B
  # n Sk                  the message of line n was refused:

  S1   the system sends no such link
  S2   the link has no such sub-VL
  S3   the message has no bytes
  S4   its frame would be longer than the link's greatest
  S5   64 messages of the sub-VL are not yet released

Before a message is handed over, all frames are printed that end by its time; at
the end the others. The tables of CONFIG have to be admitted, as 'check' says. Of
several switches the name of the system's switch stands behind A and B.

A closed pipe, as with '| head', is the fault 'device Write', status 4.

Example:
  afdx send examples/network.toml fcc1 examples/messages.list";

const SUBMISSIONS_HELP: &str = "The path of a submission list, or - for standard input";

const SYSTEM_HELP: &str = "The name of the system that sends";

fn send_command<'a>(alloc: Global) -> Result<Command<'a>, AllocError> {
    let words = vec![in alloc;
        explain_option(alloc),
        line_buffered(alloc),
        progress_option(alloc),
        summary_option(alloc),
        word(alloc, "CONFIG", CONFIG_HELP),
        word(alloc, "SYSTEM", SYSTEM_HELP),
        word(alloc, "SUBMISSIONS", SUBMISSIONS_HELP),
    ]?;
    command(alloc, "send", SEND_ABOUT, SEND_AFTER).args(words)
}

const BAG_HELP: &str = "The bandwidth allocation gap in ms: 1, 2, 4, 8, 16, 32, 64 or 128";

const LMAX_HELP: &str = "The greatest length of a frame in bytes, 64 to 1518";

const LMIN_HELP: &str = "The least length of a frame in bytes, 64 to LMAX";

const JITTER_HELP: &str = "The jitter in us, at most the gap";

const VL_HELP: &str = "The link's identifier, 0 to 65535";

const PORT_HELP: &str = "The input port of its frames, 1 to 24";

const POLICING_HELP: &str = "\
By bytes a frame is charged by its length, by frames as the
longest";

const KINDS_OF_POLICING: &[&str] = &["byte", "frame"];

/// An option with a number.
fn number_option<'a>(alloc: Global, name: &'a str, usual: &'a str, help: &'a str) -> Arg<'a> {
    number(alloc, name, help)
        .long(name)
        .value_name("N")
        .default_value(usual)
}

/// A number that has to be there.
fn number_word<'a>(alloc: Global, name: &'a str, help: &'a str) -> Arg<'a> {
    number(alloc, name, help).required(true)
}

/// The option that says how a frame is charged.
fn policing_option<'a>(alloc: Global) -> Arg<'a> {
    Arg::new(alloc, "policing")
        .long("policing")
        .value_name("KIND")
        .help(POLICING_HELP)
        .default_value("byte")
        .value_parser(KINDS_OF_POLICING)
}

fn police_command<'a>(alloc: Global) -> Result<Command<'a>, AllocError> {
    let words = vec![in alloc;
        number_option(alloc, "vl", "1", VL_HELP),
        number_option(alloc, "port", "1", PORT_HELP),
        number_option(alloc, "lmin", "64", LMIN_HELP),
        policing_option(alloc),
        interface_option(alloc),
        fcs_option(alloc),
        origin_option(alloc),
        reorder_option(alloc),
        explain_option(alloc),
        line_buffered(alloc),
        progress_option(alloc),
        summary_option(alloc),
        number_word(alloc, "BAG_MS", BAG_HELP),
        number_word(alloc, "LMAX", LMAX_HELP),
        number_word(alloc, "JITTER_US", JITTER_HELP),
        word(alloc, "LIST", LIST_HELP),
    ]?;
    command(alloc, "police", POLICE_ABOUT, POLICE_AFTER).args(words)
}

const EXPLAIN_ABOUT: &str = "Says in plain words what a line of the program means";

const EXPLAIN_AFTER: &str = "\
TEXT is a line that the program printed, as it was printed: a fault on standard
error, the line of --summary, a line of 'check', 'conform', 'list', 'replay', 'police'
or 'send'. Or it is a word of such a line: 'accept', why a frame was dropped or is
strange, 'stopped', a line of admission, why a message was refused, one of the
letters B, D, E, F, L, M, m, P, R, S and T, or the name of a fault, as 'OutOfRange'.
With a text that is none of these the line is 'words UnknownText' and the status 2.

With --list each word and each form of a line is printed with what it means: the
name of its list and the word, then the text, then an empty line. The lists are
'drop' (why a switch drops a frame), 'unread' (why a system drops one), 'refusal'
(of a message), 'strange' (why a frame that left is), 'admission', 'config' (faults),
'key' (of a configuration), 'fault' (of a run or of the words) and 'line' (of the
output). In a form 'n' is a number, '*' any word, 'a|b' one of two words.

Examples:
  afdx explain 'config Missing link 1 key 7'
  afdx explain no A2 3 252
  afdx explain over-rate
  afdx explain TooManyLines
  afdx explain --list";

const LIST_ALL_HELP: &str = "Prints each word and each form of a line, with what it means";

fn explain_command<'a>(alloc: Global) -> Result<Command<'a>, AllocError> {
    let text = Arg::new(alloc, "TEXT")
        .help("A line, in quotes or not, or a word of one")
        .num_args(1..)
        .required_unless_present("list")?;
    let list = flag(alloc, "list", LIST_ALL_HELP);
    let words = vec![in alloc; list, text]?;
    command(alloc, "explain", EXPLAIN_ABOUT, EXPLAIN_AFTER).args(words)
}

/// With a command more, where memory was there to make both.
fn with_command<'a>(
    program: Result<Command<'a>, AllocError>,
    made: Result<Command<'a>, AllocError>,
) -> Result<Command<'a>, AllocError> {
    program?.subcommand(made?)
}

/// The words that the program takes.
pub fn afdx_command<'a>(alloc: Global) -> Result<Command<'a>, AllocError> {
    let program = command(alloc, "afdx", ABOUT, AFTER)
        .version(VERSION)
        .subcommand_required(true)
        .arg_required_else_help(true);
    let program = with_command(Ok(program), check_command(alloc));
    let program = with_command(program, conform_command(alloc));
    let program = with_command(program, explain_command(alloc));
    let program = with_command(program, list_command(alloc));
    let program = with_command(program, police_command(alloc));
    let program = with_command(program, replay_command(alloc));
    let program = with_command(program, send_command(alloc));
    with_command(program, solve_command(alloc))
}
