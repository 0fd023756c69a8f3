//! What the program says of itself and of its commands where it is asked for help.

/// The help of one command.
#[derive(Clone, Copy)]
pub(crate) struct Help {
    /// One line for the list of the commands: what it does, reads and prints.
    pub about: &'static str,
    /// The same at more length, for the help of the command alone.
    pub long_about: &'static str,
    /// A line of words that call for it.
    pub example: &'static str,
}

/// What the program is for.
pub(crate) const PROGRAM: &str = "Keeps the tickets of a print shop: edits one, \
    runs a whole shop, or runs one controller, by hand or over the network.\n\
    With no word at all it edits a ticket, as `jdf_cli edit` does.";

/// The version of the program, what it reads, and the toolchain that proved it.
pub(crate) const VERSION: &str = "1.0\n\
    States of FILE: formats 1 and 2\n\
    Messages: JMF 1.5\n\
    Proved with: rattle-kit-13f logic dac8208d650f15bf";

/// A line of words for each command.
pub(crate) const EXAMPLES: &str = "Examples, at the top of the repository:\n  \
    jdf_cli edit < examples/brochure.json\n  \
    jdf_cli world < examples/shop.json\n  \
    jdf_cli loop < examples/lost.json\n  \
    jdf_cli new mis < examples/shop/mis.json\n  \
    jdf_cli new press < examples/shop/press.json\n  \
    jdf_cli order mis --at 1767225600 < examples/shop/spawn.json > sent\n  \
    sed 1d sent | jdf_cli take press --at 1767225605\n  \
    jdf_cli show mis\n  \
    jdf_cli list mis\n  \
    jdf_cli check < examples/brochure.json\n  \
    jdf_cli explain 41\n  \
    jdf_cli serve press --listen 127.0.0.1:8010 &\n  \
    sed 1d sent | jdf_cli send http://127.0.0.1:8010/jmf";

pub(crate) const EDIT: Help = Help {
    about: "Edits a ticket: reads it and its edits, prints a line for each edit and the ticket",
    long_about: "Edits a ticket.\n\n\
        Reads a ticket and its edits from standard input, or from INPUT. Prints a line for each\n\
        edit, whether it was made or why it was refused, and then the ticket. With no word at\n\
        all, the program does the same from standard input.",
    example: "Examples:\n  jdf_cli edit < examples/brochure.json\n  \
        jdf_cli edit --from examples/brochure.json",
};

pub(crate) const WORLD: Help = Help {
    about: "Runs a shop: reads its script, prints a line for each event and the ticket",
    long_about: "Runs a whole shop, a master and its workers.\n\n\
        Reads from standard input the script of a shop. Prints a line for each event, and then\n\
        the master's ticket.",
    example: "Example:\n  jdf_cli world < examples/shop.json",
};

pub(crate) const LOOP: Help = Help {
    about: "Runs a shop over the network: reads its script, prints what `world` prints",
    long_about: "Runs a whole shop, a master and its workers, over the machine's own network.\n\n\
        Reads from standard input the script of a shop in which no controller stops. Each\n\
        message is sent over HTTP to a controller that listens on 127.0.0.1. Prints a line for\n\
        each event, and then the master's ticket, as `world` does.",
    example: "Example:\n  jdf_cli loop < examples/lost.json",
};

pub(crate) const NEW: Help = Help {
    about: "Begins a controller: reads what it begins with, keeps it in FILE, prints nothing",
    long_about: "Begins a controller, a master or a worker, and keeps it in FILE.\n\n\
        Reads from standard input, or from INPUT, what it begins with: a master's name, its\n\
        workers and its ticket, or a worker's name and its master's. Each master of a shop needs\n\
        a name of its own. Prints nothing.",
    example: "Examples:\n  jdf_cli new mis < examples/shop/mis.json\n  \
        jdf_cli new mis --from examples/shop/mis.json",
};

pub(crate) const ORDER: Help = Help {
    about: "Gives a controller an order: reads it, prints the reply and the message that goes out",
    long_about: "Gives the controller that is kept in FILE an order, at the time N.\n\n\
        Reads the order from standard input, or from INPUT. Prints the reply and the message\n\
        that goes out. JOURNAL gets a line for each step.\n\n\
        With --send, the message isn't printed, but sent over HTTP to the controller that listens\n\
        at URL, and its answer is taken, at the time N as well. In place of URL, @PEERS is a\n\
        peers' file, which has that of the receiver. Prints the reply to each, and what the\n\
        answer says.",
    example: "Examples:\n  jdf_cli order mis --at 1767225600 < examples/shop/spawn.json\n  \
        jdf_cli order mis --at 1767225600 --from examples/shop/spawn.json \
        --send http://127.0.0.1:8010/jmf",
};

pub(crate) const TAKE: Help = Help {
    about: "Hands a controller a message: reads it, prints the reply and the answer",
    long_about: "Hands the controller that is kept in FILE a message, at the time N.\n\n\
        Reads the message from standard input, or from INPUT. Prints the reply and the answer.\n\
        JOURNAL gets a line for each step.",
    example: "Examples:\n  sed 1d sent | jdf_cli take press --at 1767225605\n  \
        jdf_cli take press --at 1767225605 --from message.json",
};

pub(crate) const SHOW: Help = Help {
    about: "Shows a controller: reads nothing, prints its ticket or a line for each of its parts",
    long_about: "Shows the controller that is kept in FILE.\n\n\
        Reads nothing from standard input. Prints a master's ticket, or a line for each part\n\
        that a worker has.\n\n\
        With --picture, prints a picture of it as SVG for a wall screen, which a browser shows:\n\
        first what is out, with whom and since when, then the nodes, and how far each is. It\n\
        tells when it was drawn, which is at the time of the clock or at N.",
    example: "Examples:\n  jdf_cli show mis\n  jdf_cli show mis --picture > mis.svg",
};

pub(crate) const CHECK: Help = Help {
    about: "Checks a document: reads it, prints `ok`, or where it is wrong and what is",
    long_about: "Checks a document that a command reads: `ok` where it would be read.\n\n\
        Reads from standard input a document of a KIND. Prints `ok`, or the line and the column,\n\
        in bytes, of the first place that is wrong, the members that lead there, what is wrong,\n\
        and the refusal. Where no place is found, prints the refusal alone.\n\n\
        With --all, prints each place, at most 1000 of a refusal.",
    example: "Examples:\n  jdf_cli check < examples/brochure.json\n  \
        jdf_cli check opening --all < examples/shop/mis.json\n  jdf_cli check state < mis",
};

pub(crate) const LIST: Help = Help {
    about: "Lists what is out: reads nothing, prints a line for each spawn or entry",
    long_about: "Lists the spawns of the master, or the entries of the worker, that is kept in\n\
        FILE. FILE may be a folder: then those of each controller in it.\n\n\
        Reads nothing from standard input. Prints a head line and a line for each, with tabs\n\
        between, what is open first. With --open, prints what is open alone. With --json,\n\
        prints a JSON value on each line, and no head line. The seconds for which each is out\n\
        are counted to the time of the clock, or to N. Of a file in a folder that holds no\n\
        controller of its name, a line on standard error tells why it isn't listed, and the\n\
        exit status is 1.",
    example: "Examples:\n  jdf_cli list mis\n  jdf_cli list . --open --json",
};

pub(crate) const EXPLAIN: Help = Help {
    about: "Explains a refusal: reads nothing, prints when it comes, what it leaves and what to do",
    long_about: "Explains the refusal of the number N.\n\n\
        Reads nothing. Prints its number and name, when it comes, what it leaves, and what to\n\
        do.\n\n\
        What it leaves, in a word. Unread: nothing was done and nothing written, FILE is as it\n\
        was. Unchanged: the ticket or part is as it was. Answered: unchanged, and a command's\n\
        sender gets the number. Unreceived: what came over HTTP carries no message, and nothing\n\
        was done.",
    example: "Example:\n  jdf_cli explain 41",
};

pub(crate) const SERVE: Help = Help {
    about: "Serves a controller: prints where it listens, and answers messages over HTTP",
    long_about: "Serves the controller that is kept in FILE: listens on ADDR, and answers each\n\
        message that comes over HTTP. Where FILE is a folder, serves each that is kept in a file\n\
        of its name there: a message leads to its receiver. Clients are served side by side: a\n\
        slow one keeps nobody waiting. With PEERS, or peers.json in the folder, what is out goes\n\
        to the other controllers by itself.\n\n\
        Reads nothing from standard input. Prints the address that it listens on, and on\n\
        standard error a line for each request. Port 0 stands for any port that is free.\n\
        `order`, `take`, `show` and `list` may go on beside it. JOURNAL gets a line for each\n\
        step. With --page, a browser shows at that address what is with whom, and changes\n\
        nothing; its address is printed too. With --orders, its owner gives orders over the\n\
        socket: `curl --unix-socket SOCKET http://shop/NAME -d @order.json`.",
    example: "Examples:\n  jdf_cli serve press --listen 127.0.0.1:8010\n  \
        jdf_cli serve press --listen 127.0.0.1:8010 --page 127.0.0.1:8080",
};

pub(crate) const SEND: Help = Help {
    about: "Sends a message: reads it, sends it to a controller over HTTP, prints the answer",
    long_about: "Sends a message over HTTP to the controller that listens at URL. In place of\n\
        URL, @PEERS is a peers' file, which has that of the receiver.\n\n\
        Reads the message from FILE, or from standard input where no FILE is named or FILE is\n\
        `-`. Prints the answer.",
    example: "Example:\n  sed 1d sent | jdf_cli send http://127.0.0.1:8010/jmf",
};
