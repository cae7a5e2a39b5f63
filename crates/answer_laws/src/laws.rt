//! Laws over the definitions, each the contract of a function that does nothing.

ghost use Rattle.answer_laws.specs.AnswerLaws.{OneAnswer, OneFault, SomeAnswer};
ghost use Rattle.answer_laws.specs.CheckLaws.{CheckHasOneAnswer};
ghost use Rattle.answer_laws.specs.RunLaws.{RunHasAnAnswer, RunHasOneAnswer};
ghost use Rattle.answer_laws.specs.SmallestObjects.{ShowsSmallestObjects};

use check_model::{first_wrong_is_one, text_fault_is_one};
use gen_laws::{modules_have_totals, objects_have_files};
use map_model::{links_have_maps, maps_are_one};
use script_laws::scripts_have_a_run;
use session_model::sessions_are_bounded;
use transcript_laws::texts_tell_one;

/// Words, with what each name has, have one answer at most: one status, one text, and the same files saved; of `gen` its object
/// files mean the same modules, however they are spelled; of `show`, of which any text in its form is right, the status is one.
pub fn words_have_one_answer()
    ensures { OneAnswer }
{
    maps_are_one();
}

/// They have one, whatever the words are and whatever bytes files have.
pub fn words_have_an_answer()
    ensures { SomeAnswer }
{
    links_have_maps();
    objects_have_files();
    modules_have_totals();
}

/// The words `image FILE BASE`, where FILE has one 32-bit code segment with 32-bit references to itself, have the answer of
/// status 0 whose text is the bytes of one plain equation, and nothing is saved.
pub fn smallest_objects_are_shown()
    ensures { ShowsSmallestObjects }
{}

/// A file that is shown has one fault, or none, whatever is told of what stands before it.
pub fn shown_files_have_one_fault()
    ensures { OneFault }
{}

/// The words `run FILE`, with what each name has, have one status at most; where it is 1, or no script ran, they have one line;
/// and the files were loaded in one order. Of scripts that ran nothing more is said here: each answer is the transcript of a run.
pub fn runs_have_one_answer()
    ensures { RunHasOneAnswer }
{}

/// They have an answer, whatever bytes files have: of status 1, or of status 0 with a run of the scripts. So a call over told
/// files that ends with another status ends with 8, for want of memory.
pub fn runs_have_an_answer()
    ensures { RunHasAnAnswer }
{
    scripts_have_a_run();
    sessions_are_bounded();
}

/// The words `check FILE TRANSCRIPT`, with what each name has, have one answer at most, one status and one line, where the modules of
/// the session have names of bytes; and the files were loaded in one order.
pub fn checks_have_one_answer()
    ensures { CheckHasOneAnswer }
{
    first_wrong_is_one();
    text_fault_is_one();
    texts_tell_one();
}
