//! The play: a line is read, and answered, before the next one is read.
ghost use Rattle.std.specs.Prelude.{◌≡◌, ◌++◌, ◌∷◌, [], OnOk};
ghost use Rattle.agc_play.specs.declared.playing.PlayFault.TheVariants as fault;

use crate::line::{Overwrite, PlayCommand, parse_command, tell_line, tell_wrong};
use crate::player::{Effect, Player};
use agc_document::{Bench, put_bench};
use agc_machine::Refusal;
use agc_plan::Request;
use agc_session::{RunFault, Walk, write_result};
use agc_table::TableForm;
use agc_text::Field::{Number, Text};
use agc_text::{Buffer, MOST_BYTES, Output, TextWriter};
use std::alloc::{AllocError, Global};
use std::fs;
use std::io::{BufRead, ErrorKind, Read, Write};
use std::marker::Model;

/// How many bytes a line may have.
const MOST_LINE: usize = 8192;

const GREETING: &str = "Type a request, such as findvac 20 02000 00005, or help. Ctrl-D ends.\n";

const HELP: &str = "\
A line is a request, as in a script, or one of these:
    tick N     N ticks; shows those in which something happened, and the last
    undo       takes back the requests of the last line
    show       shows the state: jobs, areas, tasks, phases, FAILREG, the log
    save NAME  writes a file: a bench of all requests that were made
    save! NAME the same, over a file that is there already
    help, ?    shows this
    quit, q    ends, as exit and Ctrl-D do
The requests:
    novac P A W     a job of priority P at address A in bank W
    findvac P A W   the same with a VAC area
    end, sleep A    the running job ends, or sleeps, to be awakened at A
    prio P          the running job gets priority P
    store K W       the running job gets W in its work word K
    change          a more urgent job takes over
    rouse A         the job that sleeps at A is awakened
    list D A W      the task at A in bank W is to fire in D centiseconds
    tick            a centisecond passes
    phase G N       group G is in phase N
    restart, fresh  restart; fresh start
P is octal, 01 to 37. A and W are five octal digits. The others are decimal.
";

/// Why a play ended early.
#[derive(Clone, Copy)]
pub enum PlayFault {
    /// A read failed.
    Input,
    Run(RunFault),
}

impl From<RunFault> for PlayFault {
    ghost from_gives = { λ why e. e ≡ fault.Run why };

    fn from(fault: RunFault) -> Self {
        Self::Run(fault)
    }
}

/// How answers are shown.
#[derive(Clone, Copy)]
pub struct PlayOptions {
    /// Whether a prompt is written on standard error.
    pub prompts: bool,
    /// The form of the rows, which is text.
    pub form: TableForm,
}

/// All requests of a bench, in the order of `agc serial`.
fn requests_of(alloc: Global, bench: &Bench) -> Result<Vec<Request>, AllocError> {
    let mut requests = Vec::new(alloc);
    let mut walk = Walk::new(bench);
    while walk.advance() {
        requests.extend_from_slice(walk.requests())?;
    }
    Ok(requests)
}

/// A play: where files are written, the bench that it began from, all that was asked, from the
/// bench's own requests on, how many were asked before each line that asked for some, the names of
/// the files that were saved, the machine, what is told next, after its rows, and how. Contracts
/// see what was asked; the machine is what the bench's comes to by that.
#[derive(Drop)]
struct PlaySession<'a> {
    rt: &'a HostRuntime,
    bench: &'a Bench,
    requests: Vec<Request>,
    steps: Vec<usize>,
    saved: Vec<String>,
    player: Player,
    buffer: Buffer,
    options: PlayOptions,
}

impl<'a> Model for PlaySession<'a> {
    ghost use Rattle.std.specs.Prelude.{◌≡◌, List};
    ghost use Rattle.std.specs.List.{fold};
    ghost use Rattle.agc_plan.specs.declared.request.Request.{Request};
    ghost use Rattle.agc_run.specs.Events.{watched, watching_from};
    ghost use Rattle.agc_session.specs.Runs.{bench_machine};

    ghost Value = { List Request };

    ghost view = { λ p. p.requests.items };

    ghost invariant = { λ p. p.player
        ≡ fold watched (watching_from (bench_machine p.bench.now)) p.requests.items };
}

/// Adds that a request was refused, and the number that it came to.
fn put_refusal(buffer: &mut Buffer, bench: &Bench, refusal: Refusal) {
    match refusal {
        Refusal::LogFull => buffer.put(
            "        the log is full (limit {}): only restart and fresh are served\n",
            &[Number(u64::from(bench.limit().get()))],
        ),
        Refusal::Spent => buffer.put(
            "        spent (allowance {}): nothing more is served\n",
            &[Number(bench.allowance())],
        ),
    }
}

/// A bench of the same machine as another's, whose script is these requests.
fn bench_of(alloc: Global, bench: &Bench, requests: &[Request]) -> Result<Vec<u8>, RunFault> {
    let mut text = Vec::new(alloc);
    let mut pen = TextWriter::to(&mut text);
    put_bench(&mut pen, bench, requests);
    match pen.end() {
        Ok(()) => Ok(text),
        Err(Output) => Err(RunFault::NoMemory),
    }
}

impl<'a> PlaySession<'a> {
    /// A play that goes on where the bench ends.
    fn new(
        rt: &'a HostRuntime,
        bench: &'a Bench,
        options: PlayOptions,
    ) -> Result<PlaySession<'a>, RunFault> {
        let alloc = rt.alloc();
        let requests = requests_of(alloc, bench)?;
        let buffer = Buffer::new(alloc)?;
        let player = Player::after(alloc, bench, requests.as_slice(), options.form)?;
        Ok(PlaySession {
            rt,
            bench,
            requests,
            steps: Vec::new(alloc),
            saved: Vec::new(alloc),
            player,
            buffer,
            options,
        })
    }

    /// Writes the rows that were added, and what is told after them.
    fn send<W: Write>(&mut self, writer: &mut W) -> Result<(), Output>
        ensures { self.new ≡ self.old }
    {
        self.player.send(writer)?;
        self.buffer.send(writer)
    }

    /// Adds the state.
    fn put_state(&mut self) {
        self.player.put_state(&mut self.buffer, self.bench);
    }

    /// Adds the heading, what came of power-up, and where the bench's own requests ended.
    fn begin(&mut self) -> Result<(), RunFault> {
        self.player.put_heading(self.rt.alloc(), self.bench)?;
        let count = self.requests.len();
        let words = match count {
            0 => return Ok(()),
            1 => "{} request was made by the bench\n",
            _ => "{} requests were made by the bench\n",
        };
        self.buffer.put(words, &[Number(count as u64)]);
        self.put_state();
        Ok(())
    }

    /// Asks for one request, and adds what came of it.
    fn ask(&mut self, request: &Request, is_told: bool) -> Result<(), AllocError>
        ensures { OnOk result (self.new ≡ self.old ++ request.now ∷ []) }
    {
        self.requests.push(*request)?;
        self.player.ask(request, is_told);
        match self.player.effect() {
            Effect::Served | Effect::Quiet => {}
            Effect::Begun => self.player.put_state(&mut self.buffer, self.bench),
            Effect::Refused(refusal) => put_refusal(&mut self.buffer, self.bench, refusal),
        }
        Ok(())
    }

    /// Asks for a request this many times, up to one that is refused.
    fn ask_times<W: Write>(
        &mut self,
        request: &Request,
        times: u32,
        writer: &mut W,
    ) -> Result<(), RunFault> {
        self.steps.push(self.requests.len())?;
        for number in 1..=times {
            self.ask(request, number == times)?;
            self.send(writer)?;
            if matches!(self.player.effect(), Effect::Refused(_)) {
                return Ok(());
            }
        }
        Ok(())
    }

    /// Forgets the last line that was to ask, where it couldn't.
    fn forget_empty(&mut self) {
        if let [.., step] = self.steps.as_slice()
            && *step == self.requests.len()
        {
            self.steps.pop();
        }
    }

    /// How many requests the last line asked, or else one, that of the bench, if there is one.
    fn last_request_count(&self) -> usize {
        let count = self.requests.len();
        match self.steps.as_slice() {
            [.., step] => count.saturating_sub(*step),
            [] => count.min(1),
        }
    }

    /// Takes back this many requests.
    fn go_back(&mut self, taken: usize) -> Result<(), RunFault> {
        let left = self.requests.len().saturating_sub(taken);
        let requests = &self.requests.as_slice()[..left];
        let player = Player::after(self.rt.alloc(), self.bench, requests, self.options.form)?;
        self.player = player;
        self.requests.truncate(left);
        Ok(())
    }

    /// Takes back what the last line asked, or the last request of the bench.
    fn undo(&mut self) -> Result<(), RunFault> {
        let taken = self.last_request_count();
        if taken > 0 {
            self.go_back(taken)?;
        }
        self.steps.pop();
        let words = match taken {
            0 => "no request was made that could be taken back\n",
            1 => "{} request is taken back\n",
            _ => "{} requests are taken back\n",
        };
        if taken == 0 {
            self.buffer.text(words);
        } else {
            self.buffer.put(words, &[Number(taken as u64)]);
            self.put_state();
        }
        Ok(())
    }

    /// Whether a file of this name is there that wasn't saved here.
    fn is_foreign(&self, name: &str) -> bool {
        !self.saved.iter().any(|it| it.as_str() == name)
            && fs::metadata(self.rt, name).is_ok_and(|it| it.is_file())
    }

    /// Writes a bench of all that was asked to a file of this name, and adds what came of that.
    fn write_bench(&mut self, name: &str, text: &[u8]) -> Result<(), AllocError> {
        if let Err(error) = fs::write(self.rt, name, text) {
            let told = format!(in self.rt.alloc(); "\"{name}\": not written: {error}\n")?;
            self.buffer.text(told.as_str());
            return Ok(());
        }
        let count = self.requests.len();
        let ending = if count == 1 { "" } else { "s" };
        let told = [Text(name), Number(count as u64), Text(ending)];
        self.buffer.put("\"{}\": a bench of {} request{}\n", &told);
        self.saved.push(String::from_str(self.rt.alloc(), name)?)?;
        Ok(())
    }

    /// Saves all that was asked in a file of this name, as a bench, and adds what came of that.
    fn save(&mut self, name: &str, overwrite: Overwrite) -> Result<(), RunFault> {
        if overwrite == Overwrite::Never && self.is_foreign(name) {
            let words = "\"{}\": not written: the file is there already; save! {} writes over it\n";
            self.buffer.put(words, &[Text(name), Text(name)]);
            return Ok(());
        }
        let text = bench_of(self.rt.alloc(), self.bench, self.requests.as_slice())?;
        if text.len() > MOST_BYTES {
            let sizes = [
                Text(name),
                Number(text.len() as u64),
                Number(MOST_BYTES as u64),
            ];
            let words = "\"{}\": not written: it would have {} bytes, and agc reads {}\n";
            self.buffer.put(words, &sizes);
            return Ok(());
        }
        Ok(self.write_bench(name, text.as_slice())?)
    }

    /// Does what a line asks for, of this number.
    fn serve<W: Write>(&mut self, number: u64, line: &str, writer: &mut W) -> Result<(), RunFault> {
        match parse_command(line) {
            PlayCommand::Request(request, times) => return self.ask_times(&request, times, writer),
            PlayCommand::Undo => return self.undo(),
            PlayCommand::Show => self.put_state(),
            PlayCommand::Save(name, overwrite) => return self.save(name, overwrite),
            PlayCommand::Help => self.buffer.text(HELP),
            PlayCommand::Nothing => tell_wrong(self.rt.alloc(), number, line, &mut self.buffer)?,
        }
        Ok(())
    }

    /// Ends an answer with this text, and writes and flushes it.
    fn end_answer<W: Write>(&mut self, text: &str, writer: &mut W) -> Result<(), RunFault> {
        self.buffer.text(text);
        self.send(writer)?;
        Ok(write_result(writer.flush())?)
    }

    /// Says on standard error that a line is waited for, if that is wanted.
    fn prompt(&self, text: &str) {
        if self.options.prompts {
            let _ = eprint!(self.rt; "{text}");
        }
    }
}

/// The bytes of the next line, with its end; of one that is too long only its front. None at the
/// end of the input.
fn next_line<R: BufRead>(alloc: Global, reader: &mut R) -> Result<Vec<u8>, PlayFault> {
    let mut bytes = Vec::new(alloc);
    let mut front = Read::take(&mut *reader, MOST_LINE as u64 + 1);
    let mut read = front.read_until(b'\n', &mut bytes);
    if bytes.len() > MOST_LINE && !bytes.ends_with(b"\n") {
        read = reader.skip_until(b'\n');
    }
    match read {
        Ok(_count) => Ok(bytes),
        Err(error) if error.kind() == ErrorKind::OutOfMemory => Err(PlayFault::Run(
            RunFault::NoMemory,
        )),
        Err(_failed) => Err(PlayFault::Input),
    }
}

/// A line as a text, without its end, or why it is none.
fn text_of(line: &[u8]) -> Result<&str, &'static str> {
    if line.len() > MOST_LINE {
        return Err("too long: a line has at most 8192 bytes");
    }
    match str::from_utf8(line) {
        Ok(text) => Ok(text.strip_suffix('\n').unwrap_or(text)),
        Err(_other) => Err("not text"),
    }
}

/// Answers a line of this number, which is this text.
fn answer<W: Write>(
    played: &mut PlaySession<'_>,
    (number, text): (u64, Result<&str, &'static str>),
    writer: &mut W,
) -> Result<(), RunFault> {
    let served = match text {
        Ok(text) => played.serve(number, text, writer),
        Err(sentence) => {
            tell_line(&mut played.buffer, number, None, sentence);
            Ok(())
        }
    };
    match served {
        Ok(()) => played.end_answer("\n", writer),
        Err(RunFault::Output) => Err(RunFault::Output),
        Err(_lacking) => {
            played.forget_empty();
            played.end_answer("no memory\n\n", writer)
        }
    }
}

/// Reads the next line, of this number, and answers it. Returns whether further ones are read.
fn answer_next<R: BufRead, W: Write>(
    played: &mut PlaySession<'_>,
    number: u64,
    reader: &mut R,
    writer: &mut W,
) -> Result<bool, PlayFault> {
    played.prompt("> ");
    let line = next_line(played.rt.alloc(), reader)?;
    if line.is_empty() {
        played.prompt("\n");
        return Ok(false);
    }
    match text_of(line.as_slice()) {
        Ok("quit" | "exit" | "q") => Ok(false),
        Ok("") if played.options.prompts => Ok(true),
        text => {
            answer(played, (number, text), writer)?;
            Ok(true)
        }
    }
}

/// Begins, and answers each line before the next one is read.
fn answer_all<R: BufRead, W: Write>(
    played: &mut PlaySession<'_>,
    reader: &mut R,
    writer: &mut W,
) -> Result<(), PlayFault> {
    played.begin()?;
    played.end_answer("\n", writer)?;
    played.prompt(GREETING);
    for number in 1..u64::MAX {
        if !answer_next(played, number, reader, writer)? {
            break;
        }
    }
    Ok(())
}

/// Answers requests on a bench's machine, starting where the bench's own requests end. Each line is
/// answered, and the answer flushed, before the next line is read. Returns at the end of the input.
///
/// # Errors
///
/// That there is no memory at the start, or for a line; a request that runs out of memory is
/// reported, and play goes on. That a read or a write failed.
pub fn play<R: BufRead, W: Write>(
    rt: &HostRuntime,
    bench: &Bench,
    options: PlayOptions,
    reader: &mut R,
    writer: &mut W,
) -> Result<(), PlayFault> {
    answer_all(&mut PlaySession::new(rt, bench, options)?, reader, writer)
}
