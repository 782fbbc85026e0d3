//! The page of help, and the version.

/// The version of the program, of the protocol and of the documents that it reads.
pub(crate) const VERSION: &str =
    "version 2, for IPbus 2.0 and session documents of formats 1 and 2";

/// The lines of the page of help: each command with what it does and an example.
pub(crate) const HELP: [&str; 21] = [
    "ipbus run                runs the scripts of the session document on standard input on its boards",
    "                           bin/ipbus run < examples/start/first.toml",
    "ipbus check TABLE        lists the registers of a table, and which overlap; says how many packets scripts ask of boards",
    "                           bin/ipbus check channel < examples/start/front_ends.toml",
    "ipbus serve PORT COUNT   serves COUNT connections, 1 to 64, on a TCP port at the boards of the document",
    "                           bin/ipbus serve 5000 2 < examples/net/over_udp.toml",
    "ipbus load COUNT         runs a session of COUNT additions, 1 to 100000, that it makes itself",
    "                           bin/ipbus load 1000",
    "ipbus audit              says whether a transcript fits the session document in front of it",
    "                           bin/ipbus audit < examples/audits/one_read.input",
    "ipbus record             runs the scripts as run does, on one simulated board, and writes the capture of its datagrams",
    "                           bin/ipbus record < examples/start/first.toml",
    "ipbus describe           says what each datagram of a capture is, and up to which packet it proves",
    "                           bin/ipbus describe < examples/captures/one_read.capture",
    "ipbus undescribe         makes the text of a capture from its description",
    "                           bin/ipbus undescribe < examples/captures/one_read.description",
    "ipbus save               writes the configuration of the boards of the document: the values of its registers",
    "                           bin/ipbus save < examples/guide/configuration.toml",
    "ipbus apply              puts the values that the document has under state into its boards, and writes the same",
    "                           bin/ipbus apply < examples/configurations/array_of_channels_applied.toml",
    "docs/SESSIONS.md shows how to write a session document",
];
