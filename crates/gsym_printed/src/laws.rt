//! What the definitions say of every text, and texts written out (RULES, "What the tools print"). Nothing runs here:
//! the clauses are about the definitions alone.
ghost use Rattle.gsym_printed.specs.Plain.{PlainTexts};
ghost use Rattle.gsym_printed.specs.Examples.{WordExamples, ShownExamples, AnswerExamples, ValueExamples};

/// No text steers a terminal, whatever stands in the file and in the word: it is made of newlines, other bytes that are
/// no control bytes, and characters of UTF-8 that are neither C1 controls nor marks that turn the direction of writing.
/// A text of the file or a word, as it is shown, has no newline in it either, and the name of a refusal has none.
pub fn plain_texts()
    ensures { PlainTexts }
{}

/// Texts that are written out: words and addresses, texts of the file as they are shown, and answers in each form, of a
/// small file and of values (RULES, "What the tools print").
pub fn printed_examples()
    ensures words { WordExamples }
    ensures shown { ShownExamples }
    ensures answers { AnswerExamples }
    ensures values { ValueExamples }
{}
