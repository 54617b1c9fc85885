//! What the arithmetic coder writes is read back exactly.

ghost use Rattle.hv_entropy_model.specs.ReadingBack.{CodeWordIsReadBack, ScriptsReadListed, ScriptsReadCodeWords};

/// The arithmetic decoder (9.3.4.3), begun (9.3.2.5) on the code word of the bins of a slice and on
/// any bits after it, answers each bin's question with its value, and has then read the word alone.
pub fn code_word_is_read_back()
    ensures { CodeWordIsReadBack }
{}

/// What a script reads where these bins answer it, it reads from the list of them.
pub fn scripts_read_listed<A>()
    ensures { ScriptsReadListed A }
{}

/// What a script reads where the bins of a slice answer it, it reads from the arithmetic decoder
/// (9.3.4.3) that begins (9.3.2.5) on their code word, and has then read the word alone.
pub fn scripts_read_code_words<A>()
    ensures { ScriptsReadCodeWords A }
{}
