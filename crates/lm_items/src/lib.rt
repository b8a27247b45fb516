// The parts of an LM (ISO 16460, clause 5) as a reader without a table takes them: sections that follow each other, each with an
// opening, then fields of its own kind, then strings of octets. What they ask for, item by item, is in specs/Asked.antt; that the
// table of LM asks for the same, in specs/Same.antt.
#![tactic(auto)]

ghost use Rattle.std.specs.Prelude.{◌≡◌};
ghost use Rattle.lm_items.specs.Asked.{following, rank, is_content, least};

// What follows in a message: its N-Header; the original N-Header, which one with subtype 1 holds; the T-Header; the user data;
// nothing.
#[derive(Clone, Copy, Debug, PartialEq, Eq)]
pub enum Section {
    Network,
    Original,
    Transport,
    Content,
    End,
}

// What a section is: an N-Header of subtype 0, 1 or 2, a T-Header with feature selector 0 or 1, user data.
#[derive(Clone, Copy, Debug, PartialEq, Eq)]
pub enum Kind {
    NullNetworking,
    InternalForwarding,
    NHopForwarding,
    Dissemination,
    Session,
    UserData,
}

// What follows a section of a kind.
pub fn following(kind: Kind) -> Section
    ensures { result ≡ following kind }
{
    match kind {
        Kind::NullNetworking => Section::Transport,
        Kind::InternalForwarding => Section::Original,
        Kind::NHopForwarding => Section::Transport,
        Kind::Dissemination => Section::Content,
        Kind::Session => Section::Content,
        Kind::UserData => Section::End,
    }
}

// How many sections at most are left.
pub fn rank(section: Section) -> u32
    ensures { result ≡ rank section }
{
    match section {
        Section::Network => 4,
        Section::Original => 3,
        Section::Transport => 2,
        Section::Content => 1,
        Section::End => 0,
    }
}

// Whether a section is the user data.
pub fn is_content(kind: Kind) -> bool
    ensures { result ≡ is_content kind }
{
    matches!(kind, Kind::UserData)
}

// The least length of a string in a section: 1 for an extension element's contents, 0 for user data.
pub fn least(kind: Kind) -> u32
    ensures { result ≡ least kind }
{
    if is_content(kind) { 0 } else { 1 }
}
