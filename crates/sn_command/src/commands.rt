// The commands and their options, with the texts that help shows of them.
ghost use Rattle.std.specs.Prelude.{◌≡◌, fold};
ghost use Rattle.sn_command.specs.Rows.{with_command_row};
ghost use Rattle.sn_command.specs.Syntax.{sn_app, sn_top};

/// An option `--name VALUE` of a command.
pub struct OptionRow {
    pub name: &'static str,
    pub value: &'static str,
    pub help: &'static str,
    pub required: bool,
}

/// A command and its options.
pub struct CommandRow {
    pub name: &'static str,
    pub about: &'static str,
    pub options: &'static [OptionRow],
}

const STORE: OptionRow = OptionRow {
    name: "store",
    value: "PATH",
    help: "The store's file; one that isn't there is made",
    required: true,
};

const SERVER: OptionRow = OptionRow {
    name: "server",
    value: "HOST:PORT",
    help: "The server, HOST:PORT, as 127.0.0.1:8080",
    required: true,
};

const IDENTIFIER: OptionRow = OptionRow {
    name: "identifier",
    value: "TEXT",
    help: "The account, 1 to 254 bytes",
    required: true,
};

const COST: OptionRow = OptionRow {
    name: "cost",
    value: "N",
    help: "Iterations of PBKDF2, 1 to 4294967295; 110000 where it is left out",
    required: false,
};

const DEVICE_COST: OptionRow = OptionRow {
    name: "cost",
    value: "N",
    help: "Iterations of PBKDF2, 110000 to 10000000; 110000 where it is left out",
    required: false,
};

const UUID: OptionRow = OptionRow {
    name: "uuid",
    value: "UUID",
    help: "The item, as 8-4-4-4-12 lower-case hex digits",
    required: true,
};

const CHOSEN_UUID: OptionRow = OptionRow {
    required: false,
    ..UUID
};

const KEY: OptionRow = OptionRow {
    name: "key",
    value: "KEY",
    help: "128 lower-case hex digits: the first 64 encrypt, the last 64 authenticate",
    required: true,
};

const NONCE: OptionRow = OptionRow {
    name: "nonce",
    value: "TEXT",
    help: "The account's nonce, 1 to 256 bytes",
    required: true,
};

const TITLE: OptionRow = OptionRow {
    name: "title",
    value: "TEXT",
    help: "The title of a note, of which standard input is the text",
    required: false,
};

const NUMBER: OptionRow = OptionRow {
    name: "number",
    value: "N",
    help: "The number to start at, 0 to 65536",
    required: true,
};

const COUNT: OptionRow = OptionRow {
    name: "count",
    value: "N",
    help: "How many events to make, 1 to 100000",
    required: true,
};

const PORT: OptionRow = OptionRow {
    name: "port",
    value: "N",
    help: "The port, 0 to 65535; at 0 the system chooses one",
    required: true,
};

const REQUESTS: OptionRow = OptionRow {
    name: "requests",
    value: "N",
    help: "How many requests to answer, 1 to 1000000; a connection that ends without an answer counts as one",
    required: true,
};

const SEAL: CommandRow = CommandRow {
    name: "seal",
    about: "Seals standard input, a text of at most 16777216 bytes, and writes it as one 003 string and a line feed.",
    options: &[UUID, KEY, IDENTIFIER, COST, NONCE],
};

const OPEN: CommandRow = CommandRow {
    name: "open",
    about: "Opens one 003 string on standard input, which may end with a line feed, and writes its plain bytes.",
    options: &[UUID, KEY],
};

const SHOW: CommandRow = CommandRow {
    name: "show",
    about: "Shows the parts of one 003 string on standard input, and the text that its salt is made of.",
    options: &[],
};

const REPLAY: CommandRow = CommandRow {
    name: "replay",
    about: "Carries out a script of several devices and a server in memory, and reports what each line brought about.",
    options: &[],
};

const GEN: CommandRow = CommandRow {
    name: "gen",
    about: "Makes a script from a number, as long as asked, carries it out as `replay` does, and writes a summary of the report: its events, the items on the server, the versions, the forks, and the drafts left on devices, a line each. It reads no input, and the same options give the same output. For example: sn gen --number 7 --count 2000",
    options: &[NUMBER, COUNT],
};

const SERVE: CommandRow = CommandRow {
    name: "serve",
    about: "Serves the accounts of a store to devices, over HTTP on 127.0.0.1, until so many requests are answered. Once it listens it writes `listening`, the port and a line feed. A store that isn't there is made. For example: sn serve --store notes.store --port 8080 --requests 1000000",
    options: &[STORE, PORT, REQUESTS],
};

const REGISTER: CommandRow = CommandRow {
    name: "register",
    about: "Registers an account at a server, and makes this store a device of it. The password is the first line of standard input. Writes `ok`. For example: sn register --store laptop.store --server 127.0.0.1:8080 --identifier alice < password",
    options: &[STORE, SERVER, IDENTIFIER, DEVICE_COST],
};

const SIGN_IN: CommandRow = CommandRow {
    name: "signin",
    about: "Signs in to an account at a server, and makes this store a device of it. The password is the first line of standard input. Writes `ok`. For example: sn signin --store phone.store --server 127.0.0.1:8080 --identifier alice < password",
    options: &[STORE, SERVER, IDENTIFIER],
};

const SYNC: CommandRow = CommandRow {
    name: "sync",
    about: "Sends what was put, edited and deleted to the server, and takes what is new there. Writes `ok`. For example: sn sync --store laptop.store --server 127.0.0.1:8080",
    options: &[STORE, SERVER],
};

const CHANGE_PASSWORD: CommandRow = CommandRow {
    name: "passwd",
    about: "Changes the password of this store's account. The new one is the first line of standard input. It syncs, gives the account new keys, and seals the key of each item anew under them. Writes `ok`. Where it is cut off, the next sync finishes it. Each other device signs in with the new password. For example: sn passwd --store laptop.store --server 127.0.0.1:8080 < new-password",
    options: &[STORE, SERVER, DEVICE_COST],
};

const PUT: CommandRow = CommandRow {
    name: "put",
    about: "Puts a new item of type Note, and writes its uuid. Standard input is its content, a JSON object of at most 700000 bytes; with --title it is the text of a note. The next sync sends it. For example: echo Milk | sn put --store laptop.store --title Shopping",
    options: &[STORE, TITLE],
};

const EDIT: CommandRow = CommandRow {
    name: "edit",
    about: "Edits an item. Standard input is its new content, a JSON object of at most 700000 bytes. The next sync sends it. Writes `ok`. For example: sn edit --store laptop.store --uuid 00000000-0000-4000-8000-000000000001 < note.json",
    options: &[STORE, UUID],
};

const DELETE: CommandRow = CommandRow {
    name: "del",
    about: "Deletes an item. The next sync tells the server. Writes `ok`. For example: sn del --store laptop.store --uuid 00000000-0000-4000-8000-000000000001",
    options: &[STORE, UUID],
};

const LIST: CommandRow = CommandRow {
    name: "list",
    about: "Lists the items of a store, a line each: uuid, mark (deleted, draft, closed or clean), content's length in bytes, and type. With --uuid it writes the content of that item alone. For example: sn list --store laptop.store",
    options: &[STORE, CHOSEN_UUID],
};

/// The commands, in the order in which help shows them.
pub fn command_rows() -> [&'static CommandRow; 14]
    ensures { fold with_command_row sn_top result ≡ sn_app }
{
    [
        &SEAL,
        &OPEN,
        &SHOW,
        &REPLAY,
        &GEN,
        &SERVE,
        &REGISTER,
        &SIGN_IN,
        &SYNC,
        &CHANGE_PASSWORD,
        &PUT,
        &EDIT,
        &DELETE,
        &LIST,
    ]
}
