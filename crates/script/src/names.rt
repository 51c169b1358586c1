// Names of links, and of what stands beside links in a table or a packet.
ghost use Rattle.std.specs.Prelude.{◌≡◌};
ghost use Rattle.script.specs.Names.{link_named, link_of_letter, link_of_letters, lower_of};

// The link that a word names, in letters of either case or as a number.
pub fn link_named(w: &[u8]) -> Option<u32>
    ensures { result ≡ link_named w.now }
{
    match w {
        [c] => link_of_letter(lower(*c)),
        [a, b] => link_of_letters(lower(*a), lower(*b)),
        _ => None,
    }
}

// The code that a word names: a link, or 6 and 7 by their names.
pub fn code_named(w: &[u8], six: &[u8], seven: &[u8]) -> Option<u32> {
    if w == six {
        Some(6)
    } else if w == seven {
        Some(7)
    } else {
        link_named(w)
    }
}

// A link's name in capital letters.
pub fn link_name(link: u32) -> &'static str {
    match link {
        0 => "E",
        1 => "NE",
        2 => "N",
        3 => "W",
        4 => "SW",
        _ => "S",
    }
}

fn link_of_letter(c: u8) -> Option<u32>
    ensures { result ≡ link_of_letter c }
{
    match c {
        b'0' | b'e' => Some(0),
        b'1' => Some(1),
        b'2' | b'n' => Some(2),
        b'3' | b'w' => Some(3),
        b'4' => Some(4),
        b'5' | b's' => Some(5),
        _ => None,
    }
}

fn link_of_letters(a: u8, b: u8) -> Option<u32>
    ensures { result ≡ link_of_letters a b }
{
    match (a, b) {
        (b'n', b'e') => Some(1),
        (b's', b'w') => Some(4),
        _ => None,
    }
}

// A capital letter as a small one, any other byte as it is.
pub fn lower(b: u8) -> u8
    ensures { result ≡ lower_of b }
{
    b.to_ascii_lowercase()
}
