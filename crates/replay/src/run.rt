// The script line by line.
ghost use Rattle.std.specs.Prelude.{◌≡◌, length};
ghost use Rattle.receiver.specs.Promises.{lent, lent_in};
ghost use Rattle.replay.specs.Promises.{shared_lent, shared_lent_in};
ghost use Rattle.receiver.specs.View.{Memory, memory, state_of};
ghost use Rattle.script.specs.Lines.{silent};
ghost use Rattle.printing.specs.Text.{Ready};
ghost use Rattle.replay.specs.Session.{refused, adjusted, dumped, carried, spoken, Fit, Carries, Runs};

use crate::calls::{
    Session, ask, begin, carry_settings, clear, clear_all, listen, mute, poll, reset, set,
    set_answered, step_data, step_discovery, step_sync, sweep, with_raw_expiry, with_raw_limit,
};
use crate::dump::dump;
use discovery_rows::{HeadRows, NameRows, PageRows};
use listening::ListenedUniverses;
use pair_rows::{PairRows, SourceRows};
use printing::print::{flush, has_failed, put_text};
use script::lines::{Input, is_longer, next_line, without_return};
use script::parse::{Command, Setting, parse_line};
use std::io::{Stderr, Stdin, Stdout};
use waiting_store::EntryRows;

// The most bytes of a line, its end not counted.
const MOST_LINE: usize = 8192;

fn refuse(session: Session, to: Stdout, out: &mut [u8]) -> Session
    requires { Ready session.at out.old }
    ensures { (m : Memory) → Carries session m out.old
        (refused session.settings (state_of session.receiver m)) result m out.new }
{
    let at = put_text(to, out, session.at, b"error\n");
    Session { at, ..session }
}

fn adjust(session: Session, setting: Setting, to: Stdout, out: &mut [u8]) -> Session
    requires { Ready session.at out.old }
    ensures { (m : Memory) → Carries session m out.old
        (adjusted setting session.settings (state_of session.receiver m)) result m out.new }
{
    let s = session.settings;
    match setting {
        Setting::Preview(on) => set(session, s.set_process_preview_data(on), to, out),
        Setting::AnnounceDiscovery(on) => set(
            session,
            s.set_announce_source_discovery(on),
            to,
            out,
        ),
        Setting::AnnounceTermination(on) => {
            set(session, s.set_announce_stream_termination(on), to, out)
        }
        Setting::AnnounceTimeout(on) => set(session, s.set_announce_timeout(on), to, out),
        Setting::Merge(choice) => set(session, s.set_merge(choice), to, out),
        Setting::NoLimit => set(session, s.clear_source_limit(), to, out),
        Setting::Limit(n) => set_answered(session, s.set_source_limit(n), to, out),
        Setting::Expiry(n) => set_answered(session, s.set_discovery_expiry(n), to, out),
        Setting::RawLimit(n) => set(session, with_raw_limit(s, n), to, out),
        Setting::RawExpiry(n) => set(session, with_raw_expiry(s, n), to, out),
    }
}

fn show(
    session: Session,
    data_pairs: &PairRows,
    data_sources: &SourceRows,
    sync_pairs: &PairRows,
    sync_sources: &SourceRows,
    rows: &EntryRows,
    store: &[u8],
    heard: &ListenedUniverses,
    sources: &HeadRows,
    names: &NameRows,
    pages: &PageRows,
    universes: &[u16],
    to: Stdout,
    out: &mut [u8],
) -> Session
    requires { Fit session.receiver (shared_lent_in data_pairs data_sources sync_pairs sync_sources rows store heard sources
        names pages universes) × Ready session.at out.old }
    ensures { let m = shared_lent data_pairs data_sources sync_pairs sync_sources rows store heard sources names pages universes in
        Carries session m.entry out.old (dumped session.settings (state_of session.receiver m.entry)) result
        m.entry out.new }
{
    let at = dump(
        to,
        out,
        session.at,
        session.receiver,
        data_pairs,
        data_sources,
        sync_pairs,
        sync_sources,
        rows,
        store,
        heard,
        sources,
        names,
        pages,
        universes,
    );
    Session { at, ..session }
}

fn execute(
    session: Session,
    data_pairs: &mut PairRows,
    data_sources: &mut SourceRows,
    sync_pairs: &mut PairRows,
    sync_sources: &mut SourceRows,
    rows: &mut EntryRows,
    store: &mut [u8],
    heard: &mut ListenedUniverses,
    sources: &mut HeadRows,
    names: &mut NameRows,
    pages: &mut PageRows,
    universes: &mut [u16],
    command: Command,
    bytes: &[u8],
    list: &[u16],
    released: &mut [u8],
    to: Stdout,
    out: &mut [u8],
) -> Session
    requires { Fit session.receiver (lent_in data_pairs data_sources sync_pairs sync_sources rows store heard sources
        names pages universes) × Ready session.at out.old }
    ensures { let m = lent data_pairs data_sources sync_pairs sync_sources rows store heard sources names pages universes in
        Carries session m.entry out.old (carried m.entry released.old «bytes».now
        list.now command session.settings (state_of session.receiver m.entry)) result m.exit
        out.new }
{
    match command {
        Command::Data(line) => step_data(
            session,
            data_pairs,
            data_sources,
            sync_pairs,
            sync_sources,
            rows,
            store,
            heard,
            sources,
            names,
            pages,
            universes,
            line,
            bytes,
            released,
            to,
            out,
        ),
        Command::Sync(line) => step_sync(
            session,
            data_pairs,
            data_sources,
            sync_pairs,
            sync_sources,
            rows,
            store,
            heard,
            sources,
            names,
            pages,
            universes,
            line,
            released,
            to,
            out,
        ),
        Command::Discovery(line) => step_discovery(
            session,
            data_pairs,
            data_sources,
            sync_pairs,
            sync_sources,
            rows,
            store,
            heard,
            sources,
            names,
            pages,
            universes,
            line,
            bytes,
            list,
            released,
            to,
            out,
        ),
        Command::Dump => show(
            session,
            data_pairs,
            data_sources,
            sync_pairs,
            sync_sources,
            rows,
            store,
            heard,
            sources,
            names,
            pages,
            universes,
            to,
            out,
        ),
        Command::Poll(now) => poll(
            session,
            data_pairs,
            data_sources,
            sync_pairs,
            sync_sources,
            rows,
            store,
            now,
            to,
            out,
        ),
        Command::Sweep(now) => sweep(session, sources, names, pages, universes, now, to, out),
        Command::Clear(universe) => clear(session, rows, store, universe, to, out),
        Command::Listen(n) => listen(session, heard, list, n, to, out),
        Command::Mute(universe) => mute(session, heard, universe, to, out),
        Command::Listening(universe) => ask(session, heard, universe, to, out),
        Command::Fresh => begin(session, heard, to, out),
        Command::Set(setting) => adjust(session, setting, to, out),
        Command::Settings(line) => carry_settings(session, line, bytes, to, out),
        Command::ClearAll => clear_all(session, to, out),
        Command::Reset(what) => reset(session, what, to, out),
    }
}

// Empty lines and comments print nothing.
fn is_silent(line: &[u8]) -> bool
    ensures { result ≡ silent line.now }
{
    match line {
        [] => true,
        [first, ..] => *first == b'#',
    }
}

// A line, or the front of one that is too long.
fn carry_line(
    session: Session,
    data_pairs: &mut PairRows,
    data_sources: &mut SourceRows,
    sync_pairs: &mut PairRows,
    sync_sources: &mut SourceRows,
    rows: &mut EntryRows,
    store: &mut [u8],
    heard: &mut ListenedUniverses,
    sources: &mut HeadRows,
    names: &mut NameRows,
    pages: &mut PageRows,
    universes: &mut [u16],
    line: &[u8],
    long: bool,
    bytes: &mut [u8],
    list: &mut [u16],
    released: &mut [u8],
    to: Stdout,
    out: &mut [u8],
) -> Session
    requires { Fit session.receiver (lent_in data_pairs data_sources sync_pairs sync_sources rows store heard sources
        names pages universes) × Ready session.at out.old }
    ensures { let m = lent data_pairs data_sources sync_pairs sync_sources rows store heard sources names pages universes in
        Carries session m.entry out.old (spoken m.entry released.old (length «bytes».old)
        (length list.old) long line.now session.settings (state_of session.receiver m.entry)) result
        m.exit out.new }
{
    if is_silent(line) {
        return session;
    }
    if long {
        return refuse(session, to, out);
    }
    let Some(command) = parse_line(line, bytes, list) else {
        return refuse(session, to, out);
    };
    execute(
        session,
        data_pairs,
        data_sources,
        sync_pairs,
        sync_sources,
        rows,
        store,
        heard,
        sources,
        names,
        pages,
        universes,
        command,
        bytes,
        list,
        released,
        to,
        out,
    )
}

// What one line leaves for the next.
#[derive(Clone, Copy)]
pub struct Turn {
    pub session: Session,
    pub input: Input,
    pub ended: bool,
}

fn take_line(
    session: Session,
    input: Input,
    data_pairs: &mut PairRows,
    data_sources: &mut SourceRows,
    sync_pairs: &mut PairRows,
    sync_sources: &mut SourceRows,
    rows: &mut EntryRows,
    store: &mut [u8],
    heard: &mut ListenedUniverses,
    sources: &mut HeadRows,
    names: &mut NameRows,
    pages: &mut PageRows,
    universes: &mut [u16],
    from: Stdin,
    chunk: &mut [u8],
    text: &mut [u8],
    bytes: &mut [u8],
    list: &mut [u16],
    released: &mut [u8],
    to: Stdout,
    out: &mut [u8],
) -> Turn
    requires { Runs session input (lent_in data_pairs data_sources sync_pairs sync_sources rows store heard sources
        names pages universes) chunk.old out.old }
    ensures { let m = lent data_pairs data_sources sync_pairs sync_sources rows store heard sources names pages universes in
        Runs result.session result.input m.exit chunk.new out.new }
{
    let line = next_line(from, input, chunk, text);
    if line.ended {
        return Turn {
            session,
            input: line.input,
            ended: true,
        };
    }
    let kept = without_return(text, line.length);
    let long = is_longer(line.long, MOST_LINE, kept.len());
    let after = carry_line(
        session,
        data_pairs,
        data_sources,
        sync_pairs,
        sync_sources,
        rows,
        store,
        heard,
        sources,
        names,
        pages,
        universes,
        kept,
        long,
        bytes,
        list,
        released,
        to,
        out,
    );
    Turn {
        session: after,
        input: line.input,
        ended: has_failed(out),
    }
}

// What could not be read or written is said on standard error.
fn report(errors: Stderr, unread: bool, unwritten: bool) {
    if unread {
        let _ = errors.write_all(b"replay: standard input could not be read\n");
    }
    if unwritten {
        let _ = errors.write_all(b"replay: standard output could not be written\n");
    }
}

// Line after line. Nothing says that an input ends, so the lines are counted, up to a number that no run comes to.
pub fn run(
    session: Session,
    data_pairs: &mut PairRows,
    data_sources: &mut SourceRows,
    sync_pairs: &mut PairRows,
    sync_sources: &mut SourceRows,
    rows: &mut EntryRows,
    store: &mut [u8],
    heard: &mut ListenedUniverses,
    sources: &mut HeadRows,
    names: &mut NameRows,
    pages: &mut PageRows,
    universes: &mut [u16],
    from: Stdin,
    chunk: &mut [u8],
    text: &mut [u8],
    bytes: &mut [u8],
    list: &mut [u16],
    released: &mut [u8],
    to: Stdout,
    out: &mut [u8],
    errors: Stderr,
)
    requires { Fit session.receiver (lent_in data_pairs data_sources sync_pairs sync_sources rows store heard sources
        names pages universes) × Ready session.at out.old }
{
    let first = Input::new();
    let mut t = Turn {
        session,
        input: first,
        ended: false,
    };
    for _ in 0..u64::MAX {
        t = take_line(
            t.session,
            t.input,
            data_pairs,
            data_sources,
            sync_pairs,
            sync_sources,
            rows,
            store,
            heard,
            sources,
            names,
            pages,
            universes,
            from,
            chunk,
            text,
            bytes,
            list,
            released,
            to,
            out,
        );
        if t.ended {
            break;
        }
    }
    let written = flush(to, out, t.session.at);
    report(errors, t.input.failed, has_failed(out) || !written);
}
