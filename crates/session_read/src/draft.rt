//! A session while it is read.

ghost use Rattle.std.specs.Prelude.{◌≡◌, ◌∷◌, ◌++◌, [], length, IfOk, None, Some};
ghost use Rattle.lx_types.specs.Answers.{Answers};
ghost use Rattle.load_model.specs.declared.commands.Command.{Command};
ghost use Rattle.session_model.specs.declared.sessions.FailingLine as failing_line;
ghost use Rattle.session_model.specs.declared.sessions.ModLine as mod_line;
ghost use Rattle.session_model.specs.Kept.{IsOneLine, module_in_line, failure_in_line};
ghost use Rattle.session_model.specs.Statements.{gives, fails, process, command, says, reading_of};
ghost use Rattle.session_model.specs.Sessions.{rises, fault_among};
ghost use Rattle.session_read.specs.Told.{told};
ghost use Rattle.session_read.specs.Drafts.{nothing_said, open_with, session_in, Takes};

use crate::said::Said;
use load_model::Command;
use lx_types::{Fail, MAX_PROCESSES, NoMemory, Seq};
use session_model::{Commands, FailingLines, MAX_COMMANDS, ModLines, Script, Session, SessionKind};
use std::alloc::Global;

/// What the statements so far say. The last script is open: `pid` is its number, and `commands` are those
/// that it has.
#[derive(Drop)]
pub(crate) struct Draft {
    pub modules: ModLines,
    pub failing: FailingLines,
    pub scripts: Seq<Script>,
    pub pid: Option<u32>,
    pub commands: Commands,
}

// The scripts, the open one last.
fn closed(
    scripts: Seq<Script>,
    pid: Option<u32>,
    commands: Commands,
) -> Result<Seq<Script>, NoMemory>
    ensures { IfOk result (λ all. all ≡ scripts ++ open_with pid commands) }
{
    let mut scripts = scripts;
    if let Some(pid) = pid {
        scripts.push(Script { pid, commands })?;
    }
    Ok(scripts)
}

// Whether the number is that of a process, and above the last one.
pub(crate) fn rises(last: Option<u32>, pid: u32) -> bool
    ensures { result ≡ rises last pid }
{
    let above = match last {
        Some(last) => last < pid,
        None => 1 <= pid,
    };
    above && pid <= MAX_PROCESSES
}

// Adds a command to those of the open script, which may be full. It is generic, so that it drops the command in one call.
fn push_command<C: Drop>(
    pid: Option<u32>,
    commands: &mut Seq<C>,
    asked: C,
) -> Result<(), Fail<SessionKind>>
    ensures { (c : Command) → Answers result
        (λ _. (fault_among pid (length commands.old) (command c) ≡ None) × (commands.new ≡ commands.old ++ asked ∷ []))
        (λ kind. fault_among pid (length commands.old) (command c) ≡ Some kind) }
{
    if pid.is_none() {
        return Err(Fail::Said(SessionKind::Order));
    }
    if commands.as_slice().len() >= MAX_COMMANDS {
        return Err(Fail::Said(SessionKind::TooMany));
    }
    commands.push(asked)?;
    Ok(())
}

impl Draft {
    /// What no statement says.
    pub fn new(alloc: Global) -> Draft
        ensures { result ≡ nothing_said }
    {
        Draft {
            modules: ModLines::new(alloc),
            failing: FailingLines::new(alloc),
            scripts: Seq::new(alloc),
            pid: None,
            commands: Seq::new(alloc),
        }
    }

    // Modules come before all scripts.
    fn with_module(self, line: &[u8]) -> Result<Draft, Fail<SessionKind>>
        requires { IsOneLine line.now }
        ensures { (m : mod_line.ModLine) → module_in_line line.now ≡ Some m → Takes self (gives m) result }
    {
        if self.pid.is_some() {
            return Err(Fail::Said(SessionKind::Order));
        }
        Ok(Draft {
            modules: self.modules.with_line(line)?,
            failing: self.failing,
            scripts: self.scripts,
            pid: self.pid,
            commands: self.commands,
        })
    }

    // So does what fails.
    fn with_failing(self, line: &[u8]) -> Result<Draft, Fail<SessionKind>>
        requires { IsOneLine line.now }
        ensures { (f : failing_line.FailingLine) → failure_in_line line.now ≡ Some f → Takes self (fails f) result }
    {
        if self.pid.is_some() {
            return Err(Fail::Said(SessionKind::Order));
        }
        Ok(Draft {
            modules: self.modules,
            failing: self.failing.with_line(line)?,
            scripts: self.scripts,
            pid: self.pid,
            commands: self.commands,
        })
    }

    // The open script is closed, and the next one is open.
    fn with_process(self, alloc: Global, pid: u32) -> Result<Draft, Fail<SessionKind>>
        ensures { Takes self (process pid) result }
    {
        if !rises(self.pid, pid) {
            return Err(Fail::Said(SessionKind::Order));
        }
        Ok(Draft {
            modules: self.modules,
            failing: self.failing,
            scripts: closed(self.scripts, self.pid, self.commands)?,
            pid: Some(pid),
            commands: Seq::new(alloc),
        })
    }

    // A command belongs to the open script.
    fn with_command(self, asked: Command) -> Result<Draft, Fail<SessionKind>>
        ensures { Takes self (command asked) result }
    {
        let mut draft = self;
        push_command(draft.pid, &mut draft.commands, asked)?;
        Ok(draft)
    }

    /// The draft with the statement of a line more.
    pub fn with(self, alloc: Global, line: &[u8], said: Said) -> Result<Draft, Fail<SessionKind>>
        requires { reading_of line.now ≡ says (told said) }
        ensures { Takes self (told said) result }
    {
        match said {
            Said::Module(_) => self.with_module(line),
            Said::Failing(_) => self.with_failing(line),
            Said::Process(pid) => self.with_process(alloc, pid),
            Said::Command(command) => self.with_command(command),
        }
    }

    /// The session that the statements say.
    pub fn session(self) -> Result<Session, NoMemory>
        ensures { IfOk result (λ session. session ≡ session_in self) }
    {
        Ok(Session {
            modules: self.modules,
            failing: self.failing,
            scripts: closed(self.scripts, self.pid, self.commands)?,
        })
    }
}
