//! What a session document stands for.

ghost use Rattle.std.specs.Prelude.{◌≡◌};

use board_specs::BoardSpec;
use ipb_base::Text;
use node_tree::Tables;
use std::marker::Model;
use world_model::Settings;

/// The boards of a session, in the order of the document. Contracts see that list.
#[derive(Drop)]
pub struct Boards {
    items: Vec<BoardSpec>,
}

impl Model for Boards {
    ghost use Rattle.std.specs.Prelude.{List};
    ghost use Rattle.board_specs.specs.declared.spec.BoardSpec.{BoardSpec};

    ghost Value = { List BoardSpec };

    ghost view = { λ boards. boards.items.items };
}

impl Boards {
    /// The boards of a vector, in its order. It takes no memory.
    pub fn from_vec(items: Vec<BoardSpec>) -> Boards
        ensures { result ≡ items.items }
    {
        Boards { items }
    }

    /// The vector of these boards. It takes no memory.
    pub fn into_vec(self) -> Vec<BoardSpec>
        ensures { result.items ≡ self }
    {
        let Boards { items } = self;
        items
    }

    /// The boards, in order.
    pub fn as_slice(&self) -> &[BoardSpec]
        ensures { result.now ≡ self.now }
    {
        self.items.as_slice()
    }
}

/// The lines of one client, in order. Contracts see that list.
#[derive(Drop)]
pub struct Script {
    lines: Vec<Text>,
}

impl Model for Script {
    ghost use Rattle.std.specs.Prelude.{List, ℕ};

    ghost Value = { List (List ℕ) };

    ghost view = { λ script. script.lines.items };
}

impl Script {
    /// The lines of a vector, in its order. It takes no memory.
    pub fn from_vec(lines: Vec<Text>) -> Script
        ensures { result ≡ lines.items }
    {
        Script { lines }
    }

    /// The vector of these lines. It takes no memory.
    pub fn into_vec(self) -> Vec<Text>
        ensures { result.items ≡ self }
    {
        let Script { lines } = self;
        lines
    }

    /// The lines, in order.
    pub fn as_slice(&self) -> &[Text]
        ensures { result.now ≡ self.now }
    {
        self.lines.as_slice()
    }
}

/// The scripts of the clients, client 1 first. Contracts see that list.
#[derive(Drop)]
pub struct Scripts {
    items: Vec<Script>,
}

impl Model for Scripts {
    ghost use Rattle.std.specs.Prelude.{List, ℕ};

    ghost Value = { List (List (List ℕ)) };

    ghost view = { λ scripts. scripts.items.items };
}

impl Scripts {
    /// The scripts of a vector, in its order. It takes no memory.
    pub fn from_vec(items: Vec<Script>) -> Scripts
        ensures { result ≡ items.items }
    {
        Scripts { items }
    }

    /// The vector of these scripts. It takes no memory.
    pub fn into_vec(self) -> Vec<Script>
        ensures { result.items ≡ self }
    {
        let Scripts { items } = self;
        items
    }

    /// The scripts, in order.
    pub fn as_slice(&self) -> &[Script]
        ensures { result.now ≡ self.now }
    {
        self.items.as_slice()
    }
}

/// A session: what a document stands for. Of one that was read the limits below hold.
#[derive(Drop)]
pub struct Session {
    /// How long the hub waits for a board, and how many bodies go ahead of their replies.
    pub settings: Settings,
    /// The register tables by their names.
    pub tables: Tables,
    /// 1 to `MAX_BOARDS` boards, no two of one name.
    pub boards: Boards,
    /// Up to `MAX_CLIENTS` scripts.
    pub scripts: Scripts,
}
