//! Laws of the definitions alone.

ghost use Rattle.filc_top.specs.Checking.{FilesHaveOneRefusal, ProgramsAreNotRefused};
ghost use Rattle.filc_top.specs.Coding.{FilesHaveOneListing};

use c_file_rules::laws::files_have_one_answer;
use c_parser::laws::refusals_are_one;
use c_syntax::laws::files_have_one_tree;

/// A file that is checked has one refusal at most: one kind, at one line.
pub fn files_have_one_refusal()
    ensures { FilesHaveOneRefusal }
{
    refusals_are_one();
    files_have_one_tree();
    files_have_one_answer();
}

/// A file that is a program has no refusal.
pub fn programs_are_not_refused()
    ensures { ProgramsAreNotRefused }
{
    refusals_are_one();
    files_have_one_tree();
    files_have_one_answer();
}

/// A file has one listing at most.
pub fn files_have_one_listing()
    ensures { FilesHaveOneListing }
{
    files_have_one_tree();
}
