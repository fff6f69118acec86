// The options that every program has.
ghost use Rattle.arguments.specs.Options.{Reads};

// What a lone argument asks for.
#[derive(Clone, Copy)]
pub enum Wish {
    Help,
    Version,
    Other,
}

// What an argument asks for.
pub fn read(text: &[u8]) -> Wish
    ensures { Reads text.now result }
{
    match text {
        b"--help" => Wish::Help,
        b"--version" => Wish::Version,
        _ => Wish::Other,
    }
}
