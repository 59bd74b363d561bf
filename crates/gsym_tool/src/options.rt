//! What the words of the command line ask for.
ghost use Rattle.std.specs.Prelude.{◌≡◌, ◌↔◌, IsTrue};

use super::arguments::push;
use super::files::copy;
use super::trouble::Trouble;
use gsym_printed::{Form, View};
use std::alloc::Global;

/// What the words of the command line may be.
pub const USAGE: &str =
    "usage: gsym addr2line -e FILE [-a] [-f] [-i] [-p] [-s] [-C] [--base ADDRESS] [--return-addresses]
                      [--refusals] [--json] [@FILE] [ADDRESS...]
       gsym report -e FILE [--json] [@FILE] [ADDRESS...]
       gsym report [-e FILE] --binary [--json]
       gsym check [--json] FILE...
       gsym info [--json] FILE
       gsym dump FILE
       gsym make -o NEW [FILE]
  -e, --exe FILE          the GSYM symbol file
  -o, --output NEW        the GSYM symbol file to write, from the text in FILE or on standard input
  -a, --addresses         print each address first
  -f, --functions         print function names
  -i, --inlines           print inlined calls too, from the innermost outwards
  -p, --pretty-print      one line a frame
  -s, --basenames         print files without their directories
  -C, --demangle[=STYLE]  accepted, and names are printed as they stand in the file
      --base ADDRESS      where the program was loaded: subtracted from each address first
      --return-addresses  look up the address before each one, where the call stands
      --refusals          print a refusal's number and name instead of ??
      --json              one JSON object a line; of an address with all frames
      --binary            read addresses of 8 bytes from standard input; without -e the file before them, with its size
  @FILE                   read arguments from FILE
  -h, -H, --help          print this
  -v, -V, --version       print the version
Addresses are hexadecimal; without any they are read from standard input. Of a report the first is the crash address,
the others are return addresses.
";

/// What `gsym addr2line` is asked for.
#[derive(Drop)]
pub struct Answers {
    pub view: View,
    pub file: Vec<u8>,
    pub words: Vec<Vec<u8>>,
}

/// What `gsym info` is asked for.
#[derive(Drop)]
pub struct Info {
    pub json: bool,
    pub file: Vec<u8>,
}

/// What `gsym check` is asked for.
#[derive(Drop)]
pub struct Check {
    pub json: bool,
    pub files: Vec<Vec<u8>>,
}

/// What `gsym report` is asked for.
#[derive(Drop)]
pub struct Report {
    pub json: bool,
    /// Whether standard input has addresses as bytes, and not as words.
    pub binary: bool,
    /// `None` where it comes with them.
    pub file: Option<Vec<u8>>,
    pub words: Vec<Vec<u8>>,
}

/// What `gsym dump` is asked for.
#[derive(Drop)]
pub struct Dump {
    pub file: Vec<u8>,
}

/// What `gsym make` is asked for.
#[derive(Drop)]
pub struct Make {
    /// The file that is written.
    pub output: Vec<u8>,
    /// That of the text, `None` where it is on standard input.
    pub file: Option<Vec<u8>>,
}

#[derive(Drop)]
pub enum Asked {
    Help,
    Version,
    Answers(Answers),
    Report(Report),
    Info(Info),
    Check(Check),
    Dump(Dump),
    Make(Make),
}

// A command that takes no more than some of the options.
#[derive(Clone, Copy)]
enum Command {
    Answers,
    Report,
    Check,
    Info,
    Dump,
    Make,
}

// What one option sets.
#[derive(Clone, Copy)]
enum Setting {
    File,
    Output,
    Base,
    Address,
    Functions,
    Inlines,
    Pretty,
    BaseNames,
    ReturnAddresses,
    Refusals,
    Json,
    Binary,
    Demangle,
    Help,
    Version,
    Wrong,
}

fn long_option(name: &str) -> Setting {
    match name {
        "exe" => Setting::File,
        "output" => Setting::Output,
        "base" => Setting::Base,
        "addresses" => Setting::Address,
        "functions" => Setting::Functions,
        "inlines" => Setting::Inlines,
        "pretty" | "pretty-print" => Setting::Pretty,
        "basenames" => Setting::BaseNames,
        "return-addresses" => Setting::ReturnAddresses,
        "refusals" => Setting::Refusals,
        "json" => Setting::Json,
        "binary" => Setting::Binary,
        "demangle" => Setting::Demangle,
        "help" => Setting::Help,
        "version" => Setting::Version,
        _ => Setting::Wrong,
    }
}

fn short_option(letter: u8) -> Setting {
    match letter {
        b'e' => Setting::File,
        b'o' => Setting::Output,
        b'a' => Setting::Address,
        b'f' => Setting::Functions,
        b'i' => Setting::Inlines,
        b'p' => Setting::Pretty,
        b's' => Setting::BaseNames,
        b'C' => Setting::Demangle,
        b'h' | b'H' => Setting::Help,
        b'v' | b'V' => Setting::Version,
        _ => Setting::Wrong,
    }
}

fn with_option(view: View, setting: Setting) -> View {
    let mut view = view;
    match setting {
        Setting::Address => view.addresses = true,
        Setting::Functions => view.functions = true,
        Setting::Inlines => view.inlines = true,
        Setting::Pretty => {
            if !matches!(view.form, Form::Json) {
                view.form = Form::Pretty;
            }
        }
        Setting::BaseNames => view.base_names = true,
        Setting::ReturnAddresses => view.return_addresses = true,
        Setting::Refusals => view.refusals = true,
        Setting::Json => view.form = Form::Json,
        _ => {}
    }
    view
}

// The words so far.
#[derive(Drop)]
struct Parse {
    view: View,
    file: Option<Vec<u8>>,
    output: Option<Vec<u8>>,
    words: Vec<Vec<u8>>,
    // Whether what follows are addresses, whatever they begin with.
    ended: bool,
    // The option whose value is the next word.
    wants: Option<Setting>,
    // Help or version, whichever was asked for first.
    other: Option<Setting>,
    // Whether addresses are bytes.
    binary: bool,
    // The options, each with the word that it stands in.
    given: Vec<Given>,
}

// An option that was given, and its word.
#[derive(Drop)]
struct Given {
    setting: Setting,
    word: Vec<u8>,
}

// Whether the words are to be read on.
type Read = Result<(), Trouble>;

fn wrong(alloc: Global, word: &[u8]) -> Trouble {
    match copy(alloc, word) {
        Ok(word) => Trouble::Misused("no such option:", word),
        Err(_) => Trouble::Memory,
    }
}

impl Parse {
    // Keeps an option with its word.
    fn keep(&mut self, alloc: Global, setting: Setting, word: &[u8]) -> Read {
        let word = copy(alloc, word)?;
        push(&mut self.given, Given { setting, word })?;
        Ok(())
    }

    // An option that stands in a word.
    fn option(&mut self, alloc: Global, setting: Setting, word: &[u8]) -> Read {
        match setting {
            Setting::Help | Setting::Version => {
                self.other = Some(setting);
                return Ok(());
            }
            Setting::Wrong => return Err(wrong(alloc, word)),
            Setting::File | Setting::Output | Setting::Base => self.wants = Some(setting),
            Setting::Binary => self.binary = true,
            _ => self.view = with_option(self.view, setting),
        }
        self.keep(alloc, setting, word)
    }

    // The base.
    fn base(&mut self, word: Vec<u8>) -> Read {
        match gsym_printed::address_of(&word) {
            Some(base) => {
                self.view.base = gsym::Address(base);
                Ok(())
            }
            None => Err(Trouble::Misused("--base wants an address, and this is none:", word)),
        }
    }

    // A value for the option before.
    fn value(&mut self, setting: Setting, word: Vec<u8>) -> Read {
        self.wants = None;
        match setting {
            Setting::Base => return self.base(word),
            Setting::Output => self.output = Some(word),
            _ => self.file = Some(word),
        }
        Ok(())
    }

    // Options of one letter, in one word.
    fn letters(&mut self, alloc: Global, letters: &[u8]) -> Read {
        let mut rest = letters;
        while let Some((letter, after)) = rest.split_first() {
            let setting = short_option(*letter);
            // The name of a file may begin so, and must not end a run with the status 0.
            if letters.len() > 1 && matches!(setting, Setting::Help | Setting::Version) {
                let mut word = copy(alloc, b"-".as_slice())?;
                word.extend_from_slice(letters)?;
                return Err(Trouble::Misused("-h and -v stand alone in a word:", word));
            }
            self.option(alloc, setting, &[b'-', *letter])?;
            rest = after;
            if let Some(setting) = self.wants {
                if rest.is_empty() {
                    return Ok(());
                }
                return self.value(setting, copy(alloc, rest)?);
            }
        }
        Ok(())
    }

    // A long option with a value in its word.
    fn long_value(&mut self, alloc: Global, setting: Setting, value: &[u8], word: &[u8]) -> Read {
        match setting {
            Setting::File | Setting::Output | Setting::Base => {
                self.value(setting, copy(alloc, value)?)?;
            }
            Setting::Demangle => {}
            _ => return Err(wrong(alloc, word)),
        }
        self.keep(alloc, setting, word)
    }

    // A long option, and the word that it stands in.
    fn long(&mut self, alloc: Global, name: &[u8], word: &[u8]) -> Read {
        let Ok(name) = str::from_utf8(name) else {
            return Err(wrong(alloc, word));
        };
        match name.split_once('=') {
            Some((name, value)) => {
                self.long_value(alloc, long_option(name), value.as_bytes(), word)
            }
            None => self.option(alloc, long_option(name), word),
        }
    }

    fn word(&mut self, alloc: Global, word: Vec<u8>) -> Read {
        if let Some(setting) = self.wants {
            return self.value(setting, word);
        }
        if self.ended || word.len() < 2 || word[0] != b'-' {
            push(&mut self.words, word)?;
            return Ok(());
        }
        if word[1] != b'-' {
            return self.letters(alloc, &word[1..]);
        }
        if word.len() == 2 {
            self.ended = true;
            return Ok(());
        }
        self.long(alloc, &word[2..], &word)
    }

    // What stands where a value is missing.
    fn missing(&self, alloc: Global) -> Read {
        let name = match self.wants {
            Some(Setting::Base) => "--base",
            Some(Setting::Output) => "-o",
            Some(_) => "-e",
            None => return Ok(()),
        };
        Err(Trouble::Misused(
            "an option without its argument:",
            copy(alloc, name.as_bytes())?,
        ))
    }
}

// Whether a command has an option.
fn takes(command: Command, setting: Setting) -> bool {
    match setting {
        Setting::Json => !matches!(command, Command::Dump | Command::Make),
        Setting::Output => matches!(command, Command::Make),
        Setting::File => matches!(command, Command::Answers | Command::Report),
        Setting::Binary => matches!(command, Command::Report),
        _ => matches!(command, Command::Answers),
    }
}

fn no_such_option(command: Command) -> &'static str {
    match command {
        Command::Answers => "gsym addr2line has no such option:",
        Command::Report => "gsym report has no such option:",
        Command::Check => "gsym check has no such option:",
        Command::Info => "gsym info has no such option:",
        Command::Dump => "gsym dump has no such option:",
        Command::Make => "gsym make has no such option:",
    }
}

// The first option that a command doesn't have is told.
fn judge_options(command: Command, given: Vec<Given>) -> Read {
    for option in given {
        if !takes(command, option.setting) {
            return Err(Trouble::Misused(no_such_option(command), option.word));
        }
    }
    Ok(())
}

fn is_word(word: &[u8], text: &str) -> bool
    ensures { IsTrue result ↔ (word.now ≡ text.now) }
{
    word == text.as_bytes()
}

// What `gsym info` is asked for.
fn info_asked(parse: Parse) -> Result<Asked, Trouble> {
    let Parse {
        view,
        words,
        given,
        ..
    } = parse;
    judge_options(Command::Info, given)?;
    let mut words = words;
    let json = matches!(view.form, Form::Json);
    match words.pop() {
        Some(file) if words.is_empty() => Ok(Asked::Info(Info { json, file })),
        Some(_) => Err(Trouble::Usage("gsym info takes one FILE alone")),
        None => Err(Trouble::Usage("FILE is missing")),
    }
}

// What `gsym dump` is asked for.
fn dump_asked(parse: Parse) -> Result<Asked, Trouble> {
    let Parse { words, given, .. } = parse;
    judge_options(Command::Dump, given)?;
    let mut words = words;
    match words.pop() {
        Some(file) if words.is_empty() => Ok(Asked::Dump(Dump { file })),
        Some(_) => Err(Trouble::Usage("gsym dump takes one FILE alone")),
        None => Err(Trouble::Usage("FILE is missing")),
    }
}

// What `gsym make` is asked for.
fn make_asked(parse: Parse) -> Result<Asked, Trouble> {
    let Parse {
        output,
        words,
        given,
        ..
    } = parse;
    judge_options(Command::Make, given)?;
    let Some(output) = output else {
        return Err(Trouble::Usage("-o NEW is missing"));
    };
    let mut words = words;
    let file = words.pop();
    if !words.is_empty() {
        return Err(Trouble::Usage("gsym make takes one FILE alone"));
    }
    Ok(Asked::Make(Make { output, file }))
}

// What `gsym check` is asked for.
fn check_asked(parse: Parse) -> Result<Asked, Trouble> {
    let Parse {
        view,
        words,
        given,
        ..
    } = parse;
    judge_options(Command::Check, given)?;
    if words.is_empty() {
        return Err(Trouble::Usage("FILE is missing"));
    }
    let json = matches!(view.form, Form::Json);
    Ok(Asked::Check(Check { json, files: words }))
}

// What `gsym addr2line` is asked for.
fn answers_asked(parse: Parse) -> Result<Asked, Trouble> {
    let Parse {
        view,
        file,
        words,
        given,
        ..
    } = parse;
    judge_options(Command::Answers, given)?;
    match file {
        Some(file) => Ok(Asked::Answers(Answers { view, file, words })),
        None => Err(Trouble::Usage("-e FILE is missing")),
    }
}

// What `gsym report` is asked for.
fn report_asked(parse: Parse) -> Result<Asked, Trouble> {
    let Parse {
        view,
        file,
        words,
        binary,
        given,
        ..
    } = parse;
    judge_options(Command::Report, given)?;
    if file.is_none() && !binary {
        return Err(Trouble::Usage("-e FILE is missing"));
    }
    if binary && !words.is_empty() {
        return Err(Trouble::Usage("gsym report --binary takes no ADDRESS"));
    }
    Ok(Asked::Report(Report {
        json: matches!(view.form, Form::Json),
        binary,
        file,
        words,
    }))
}

fn asked_of(parse: Parse, command: Option<Vec<u8>>) -> Result<Asked, Trouble> {
    match parse.other {
        Some(Setting::Help) => return Ok(Asked::Help),
        Some(_) => return Ok(Asked::Version),
        None => {}
    }
    let Some(command) = command else {
        return Err(Trouble::Usage("a command is missing"));
    };
    if is_word(&command, "addr2line") {
        return answers_asked(parse);
    }
    if is_word(&command, "report") {
        return report_asked(parse);
    }
    if is_word(&command, "info") {
        return info_asked(parse);
    }
    if is_word(&command, "check") {
        return check_asked(parse);
    }
    if is_word(&command, "dump") {
        return dump_asked(parse);
    }
    if is_word(&command, "make") {
        return make_asked(parse);
    }
    Err(Trouble::Misused("no such command:", command))
}

/// What all words after the program's name ask for.
pub fn asked_by(alloc: Global, words: Vec<Vec<u8>>) -> Result<Asked, Trouble> {
    let mut parse = Parse {
        view: View::default(),
        file: None,
        output: None,
        words: Vec::new(alloc),
        ended: false,
        wants: None,
        other: None,
        binary: false,
        given: Vec::new(alloc),
    };
    let mut command = None;
    for word in words {
        if parse.other.is_some() {
            break;
        }
        if command.is_none() && parse.wants.is_none() && !word.starts_with(b"-".as_slice()) {
            command = Some(word);
        } else {
            parse.word(alloc, word)?;
        }
    }
    parse.missing(alloc)?;
    asked_of(parse, command)
}
