//! The commands, a row for each: its words, what it does in a line, what it wants, and its page of help. What `--help` puts and
//! the manual name the same words and lines.
ghost use Rattle.std.specs.Prelude.{◌≡◌, is_some};
ghost use Rattle.diagnostics.specs.Help.{is_command};

/// What is told of a command.
#[derive(Clone, Copy)]
pub struct Help {
    /// The command and the words after it.
    pub words: &'static str,
    /// What it does, in a line.
    pub does: &'static str,
    /// What is told where the words after it are other ones.
    pub wants: &'static str,
    /// The page of help, which begins with the words.
    pub page: &'static str,
}

const LINK: Help = Help {
    words: "link OUT DEF IN ..",
    does: "links object files and libraries, DEF may be -, as: lx link d.dll d.def a.obj b.lib",
    wants: "link wants OUT DEF IN ..: the module, the definition file or -, and at least one file",
    page: "\
lx link OUT DEF IN ..

Links object files and libraries with the definition file DEF into the module OUT, and prints the module's name and how many
objects, pages and fixup sources it has. OUT is written over, once all went well.

  OUT   the module, as d.dll or p.exe
  DEF   the definition file; - for none: then OUT is a program. A program wants a stack: STACKSIZE 8192 in DEF, or an object
        file with a stack segment; without both it is empty
  IN    an object file (OMF, as nasm -f obj writes), or a library, whose first byte is F0h: of a library the modules that
        define a wanted name are taken

as: lx link add.dll add.def add.obj
    lx link main.exe main.def main.obj add.lib
of which main.def has NAME MAIN and STACKSIZE 8192
",
};

const IMPLIB: Help = Help {
    words: "implib OUT IN ..",
    does: "writes an import library of modules and definition files, as: lx implib d.lib d.def",
    wants: "implib wants OUT IN ..: the library, and at least one definition file or module",
    page: "\
lx implib OUT IN ..

Makes the import library OUT of definition files and modules, and prints how many exports it has. OUT is written over, once
all went well. OUT stands first: lx implib a.def writes nothing, and lx implib a.def b.def writes over a.def.

  OUT   the library, as d.lib
  IN    a module, which begins with LX or MZ, or a definition file

as: lx implib add.lib add.def
",
};

const IMAGE: Help = Help {
    words: "image OBJ BASE",
    does: "shows an object file's objects in memory, as: lx image a.obj 10000000",
    wants: "image wants OBJ BASE: an object file, and eight hexadecimal digits as 10000000",
    page: "\
lx image OBJ BASE

Links the object file OBJ alone, as a library from BASE, and prints the bytes that its objects have in memory, 16 on a line
after their address. Nothing is written.

  OBJ   an object file without imports
  BASE  eight hexadecimal digits, a multiple of 65,536 from 00010000 to 1FFF0000

as: lx image add.obj 10000000
",
};

const BIND: Help = Help {
    words: "bind OUT MODULE RES",
    does: "adds the items of a resource file to a module, as: lx bind d2.dll d.dll d.res",
    wants: "bind wants OUT MODULE RES: the module to write, a module, and a resource file",
    page: "\
lx bind OUT MODULE RES

Adds the items of the resource file RES to a module that has no resources, as one object more, and prints how many items they
are and how many bytes they have. OUT is written over, once all went well.

  OUT     the module with its resources, as d2.dll
  MODULE  a module, which begins with LX or MZ
  RES     a resource file of this profile: items, each of FFh, its type, FFh, its identifier, flags, the length of its data,
          and its data (docs/MODULES.md, Resource files)

The object table, the page tables and the resource table move to OUT's end, and the sizes of the loader section and of the fixup
section stay as they were: a loader that takes each table by its field reads OUT, one that reads the loader section in one piece,
as long as its size says, does not (docs/TRAPS.md).

as: lx bind add2.dll add.dll add.res
",
};

const GEN: Help = Help {
    words: "gen N PREFIX",
    does: "makes N modules and a session of them, to try the others on, as: lx gen 2 g",
    wants: "gen wants N PREFIX: a number from 1 to 64, and what the names of the files begin with",
    page: "\
lx gen N PREFIX

Makes N modules to try link and run on, each with 2,048 references to itself and to the module before it: writes for each an
object file and a definition file, and after them a session that builds all and in which four processes load them, touch each
page and read the front of each. Prints how many pages and references they have, and the sum of their 32-bit words where they are
loaded one after the other. No file is read; files of these names are written over.

  N       how many, from 1 to 64
  PREFIX  what the names of the files begin with, a folder too: g gives g1.obj, g1.def, g2.obj .. and g.ses

as: lx gen 2 g
    lx run g.ses
",
};

const RUN: Help = Help {
    words: "run FILE",
    does: "runs the processes of a session in threads, as: lx run d.ses",
    wants: "run wants FILE: a session",
    page: "\
lx run FILE

Runs the session in FILE: takes modules from files, or builds them as link does, and carries out the scripts of up to 16
processes over them, each script on a thread of its own. Prints the history of loads, faults, writes and frees, and below it
what each process was answered beside. Nothing is written. Standard error names the modules and the entries that are imported and
that no line gives.

  FILE  the session, a line for each step: first take FILE, build STEM DEF IN .. and failing M N; then, below process N, the
        commands start, load, free, touch, peek, shared, write, debug, query, getres and exit

Which process goes first is not settled: two runs of one session may print different histories.

as: lx run add.ses
",
};

const CHECK: Help = Help {
    words: "check FILE TRANSCRIPT",
    does: "judges a text as the transcript of a run of a session, as: lx check d.ses d.txt",
    wants: "check wants FILE TRANSCRIPT: a session, and the text of a run of it",
    page: "\
lx check FILE TRANSCRIPT

Judges whether TRANSCRIPT, by whomever it was written, is the transcript of a run of the session in FILE: takes or builds the
modules as run does, and then plays the text, line by line, with a loader in one thread. No script runs. Prints ok with the numbers
of processes, entries and faults; or the first line that is wrong, with one of Text, Scripts, Front, Command, Refused, Entry, Fault,
Touch, Reply and Count (docs/SESSIONS.md, Checked transcripts). Of Entry and Reply standard error says what the loader has there.
Nothing is written.

  FILE        the session, as of run
  TRANSCRIPT  the text, as run prints it: bytes that are no text in its form are told as Text

as: lx run add.ses > add.txt
    lx check add.ses add.txt
",
};

const DUMP: Help = Help {
    words: "dump FILE",
    does: "shows what is in a module, as: lx dump d.dll",
    wants: "dump wants FILE: a module",
    page: "\
lx dump FILE

Prints what is in a module: a line for it, its objects with their pages and, below a page, its fixups, the modules that it
imports from, its entries and its names. Nothing is written.

  FILE  a module, which begins with LX or MZ

as: lx dump add.dll
",
};

const MAP: Help = Help {
    words: "map DEF IN ..",
    does: "shows where all stands that link would place, as: lx map d.def a.obj b.lib",
    wants: "map wants DEF IN ..: the definition file or -, and at least one file",
    page: "\
lx map DEF IN ..

Prints where everything stands that link would make of these files: a line for each object, each segment of a module that is
taken, each communal, each public, each constant and each import. Nothing is written. Standard error says which file, or which
module of a library, each number of a module is, and which COMDATs are left out.

  DEF   the definition file; - for none: then the module is a program. Without a name in it the module is MAP
  IN    an object file or a library, as of link

as: lx map add.def add.obj
    lx map - main.obj add.lib
",
};

const MEMORY: Help = Help {
    words: "memory MODULE ..",
    does: "shows what modules hold in memory, as: lx memory p.exe d.dll",
    wants: "memory wants MODULE ..: the module, and then the libraries that it imports",
    page: "\
lx memory MODULE ..

Prints what the first module holds in memory once it is loaded, or started, where it is a program, by a loader that has the modules
of these files alone: of each object a line with its module, number, base, size and flags, and its bytes, 16 on a line after their
address; of an invalid page a line AAAAAAAA: invalid. Before it stand the modules that it imports, in the order in which they are
attached. Nothing is written.

  MODULE  a module, which begins with LX or MZ: first the one that is loaded, then the libraries that it imports, and those that
          they import. Modules that it does not reach are not shown

as: lx memory add.dll
    lx memory main.exe add.dll
",
};

const SHOW: Help = Help {
    words: "show FILE",
    does: "shows what is in a file, part by part, as: lx show a.obj",
    wants: "show wants FILE: a module, an object file, a library or a resource file",
    page: "\
lx show FILE

Prints what is in a module, an object file, a library or a resource file, part by part, each part below a line with its name and how
many lines it has. Where the file has a fault, what was read before it is printed, and then the fault. Later versions may print more
lines: for another program there is lx dump. Nothing is written.

  FILE  a module, which begins with LX or MZ, an object file, which begins with 80h, a library of object files, which begins with
        F0h, or a resource file, which begins with FFh

as: lx show add.dll
    lx show add.obj
",
};

/// The row of a command, or None where there is no such command.
pub fn help_of(command: &str) -> Option<Help>
    ensures { is_some result ≡ is_command command.now }
{
    match command {
        "link" => Some(LINK),
        "implib" => Some(IMPLIB),
        "image" => Some(IMAGE),
        "bind" => Some(BIND),
        "gen" => Some(GEN),
        "run" => Some(RUN),
        "check" => Some(CHECK),
        "dump" => Some(DUMP),
        "map" => Some(MAP),
        "memory" => Some(MEMORY),
        "show" => Some(SHOW),
        _ => None,
    }
}
