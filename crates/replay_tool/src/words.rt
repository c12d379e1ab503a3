ghost use Rattle.std.specs.Prelude.{◌↔◌, IsTrue};
ghost use Rattle.replay_tool.specs.Words.{texts_of, AsksReplay};

/// Whether the words are those that ask for a replay.
pub fn asks_replay(words: &[String]) -> bool
    ensures { IsTrue result ↔ AsksReplay (texts_of words.now) }
{
    match words {
        [word] => word.as_str() == "replay",
        _ => false,
    }
}
