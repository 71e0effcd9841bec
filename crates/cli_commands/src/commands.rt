// The commands, their forms and the number of their arguments.
use crate::hashes::Hash;
use cli_support::desk::Desk;
use cli_support::messages::Told;
use std::fmt::Display;

// On keys, ciphertexts and split keys of a parameter set, whose name is argument 2.
#[derive(Clone, Copy)]
pub enum Call {
    KeyGen,
    Encaps,
    Import,
    Refresh,
    Decaps,
    Trace,
    Demo,
}

#[derive(Clone, Copy)]
pub enum Command {
    Help,
    Hashing(Hash),
    Sampling,
    Calling(Call),
}

// In the order of the usage.
const COMMANDS: [Command; 13] = [
    Command::Hashing(Hash::Digest256),
    Command::Hashing(Hash::Digest512),
    Command::Hashing(Hash::Shake128),
    Command::Hashing(Hash::Shake256),
    Command::Sampling,
    Command::Calling(Call::KeyGen),
    Command::Calling(Call::Encaps),
    Command::Calling(Call::Import),
    Command::Calling(Call::Refresh),
    Command::Calling(Call::Decaps),
    Command::Calling(Call::Trace),
    Command::Calling(Call::Demo),
    Command::Help,
];

impl Call {
    fn form(self) -> &'static str {
        match self {
            Call::KeyGen => "keygen SET D Z EK DK",
            Call::Encaps => "encaps SET EK M CT K",
            Call::Import => "import SET DK MASKS LIMIT SPLIT",
            Call::Refresh => "refresh SET MASKS SPLIT",
            Call::Decaps => "decaps SET SPLIT CT STRIP SHARES",
            Call::Trace => "trace SET SPLIT CT STRIP STEP",
            Call::Demo => "demo SET",
        }
    }

    fn word_count(self) -> usize {
        match self {
            Call::Demo => 3,
            Call::Refresh => 5,
            _ => 7,
        }
    }
}

impl Command {
    // The command that a word names.
    pub fn named(word: &[u8]) -> Option<Self> {
        match word {
            b"help" | b"--help" => Some(Command::Help),
            b"sha3-256" => Some(Command::Hashing(Hash::Digest256)),
            b"sha3-512" => Some(Command::Hashing(Hash::Digest512)),
            b"shake128" => Some(Command::Hashing(Hash::Shake128)),
            b"shake256" => Some(Command::Hashing(Hash::Shake256)),
            b"sample" => Some(Command::Sampling),
            b"keygen" => Some(Command::Calling(Call::KeyGen)),
            b"encaps" => Some(Command::Calling(Call::Encaps)),
            b"import" => Some(Command::Calling(Call::Import)),
            b"refresh" => Some(Command::Calling(Call::Refresh)),
            b"decaps" => Some(Command::Calling(Call::Decaps)),
            b"trace" => Some(Command::Calling(Call::Trace)),
            b"demo" => Some(Command::Calling(Call::Demo)),
            _ => None,
        }
    }

    // Its command line, without the program's name.
    fn form(self) -> &'static str {
        match self {
            Command::Help => "help",
            Command::Hashing(hash) => hash.form(),
            Command::Sampling => "sample STREAM OUT",
            Command::Calling(call) => call.form(),
        }
    }

    // How many words its command line has, the program's name among them.
    pub fn word_count(self) -> usize {
        match self {
            Command::Help => 2,
            Command::Hashing(hash) => hash.word_count(),
            Command::Sampling => 4,
            Command::Calling(call) => call.word_count(),
        }
    }
}

const SETS: &str = "SET is ml-kem-512, ml-kem-768, ml-kem-1024, kyber512, kyber768 or kyber1024";

const NOTES: [&str; 14] = [
    "Files, low byte first, with three numbers where the ranks differ:",
    "  D, Z, M, K   32 bytes each",
    "  EK           800/1184/1568 bytes",
    "  DK           1632/2400/3168 bytes",
    "  CT           768/1088/1568 bytes",
    "  MASKS        512/768/1024 coefficients of 16 bits, 4 words of 64 bits",
    "  SPLIT        two times 512/768/1024 coefficients, two times 4 words, 832/1216/1600 bytes",
    "               and the use limit and the count of uses, 4 bytes each",
    "  STRIP        9588/11750/15192 words (Kyber's 6588/6950/8592), 6400/7424/9472 coefficients",
    "  SHARES       two times 4 words, which join to K by xor",
    "  STREAM, OUT  840 bytes, 256 coefficients of 16 bits",
    "LIMIT, from 1 to 1000000, is how often SPLIT decapsulates until it is refreshed.",
    "LIMIT and STEP are decimal, and trace prints the value in decimal.",
    "decaps replaces SPLIT by one with the raised count, refresh by one with fresh shares and the count 0.",
];

// For a command line with a wrong number of words, or with another word where a parameter set's name has to be.
pub fn print_form(desk: &impl Desk, command: Command) -> Told {
    let form = command.form();
    let _ = match command {
        Command::Calling(_) => eprintln!(desk; "usage: mlkem {form}, where {SETS}"),
        _ => eprintln!(desk; "usage: mlkem {form}"),
    };
    Told
}

// Where a text goes.
#[derive(Clone, Copy)]
pub enum Stream {
    Output,
    Error,
}

// What the stream doesn't take is left out.
fn write_line(desk: &impl Desk, to: Stream, line: impl Display + Drop) {
    let _ = match to {
        Stream::Output => desk.println(line),
        Stream::Error => desk.eprintln(line),
    };
}

pub fn print_usage(desk: &impl Desk, to: Stream) {
    write_line(desk, to, "usage: mlkem COMMAND ARGUMENTS");
    for command in COMMANDS {
        write_line(desk, to, format_args!("  mlkem {}", command.form()));
    }
    write_line(desk, to, format_args!("{SETS}."));
    for line in NOTES {
        write_line(desk, to, line);
    }
}
