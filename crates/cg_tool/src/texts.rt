//! The texts of the command's help.

/// The version that `--version` prints, with the layouts of frames that are read and the one that is written.
pub const VERSION: &str = "0.1.0 (frames: layouts 1 to 3 are read, 3 is written)";

/// The description of the program.
pub const ABOUT: &str =
    "Cluster metadata by gossip, as Apache Cassandra's members exchange it. With no command it is `answer`.";

/// The input, the output and the statuses of all commands.
pub const STATUSES: &str =
    "answer and sim read standard input, audit reads files, serve and agent read both; all write standard output. \
Endpoints are written as 10.0.0.1:7000.\n\
\n\
Exit status: 0 when done; 1 after a fault that ended the work, told by a line as `fault 9 OtherCluster`; \
2 when the command line can't be read.";

/// `answer` in a line.
pub const ANSWER_ABOUT: &str = "Answer one SYN as a node that has just started";

/// The input and the output of `answer`.
pub const ANSWER_HELP: &str =
    "Reads two lines: the node, as ENDPOINT GENERATION CLUSTER, and the frame of a SYN in \
hexadecimal digits.\n\
Writes the frame of the ACK in lower-case hexadecimal digits, and ends with status 0; or one fault line, with \
status 1.\n\
\n\
Example: node 10.0.0.2:7000 in generation 5 of the cluster c1 answers a SYN that names nobody:\n\
\n  printf '10.0.0.2:7000 5 c1\\n000000080101026331010000\\n' | cg answer\n\
\n  000000190302000000010a0000021b5800000005000000000000000100";

/// `sim` in a line.
pub const SIM_ABOUT: &str =
    "Play a script of starts, changes, messages and losses over the nodes of a cluster";

/// The input and the output of `sim`.
pub const SIM_HELP: &str =
    "Reads a script, a line at a time, and writes what each line shows before it does the next:\n\
\n  seeds EP ..                    the seeds of all nodes, rising; only as the first line\
\n  start EP GENERATION            started EP GENERATION\
\n  beat EP                        version N\
\n  set EP KEY TEXT                version N; KEY is 1 to 16, TEXT the rest of the line\
\n  remove EP KEY                  version N; the key's text is removed\
\n  open EP                        message N syn\
\n  tick EP NOW W1 W2 W3 W4        round and its peers, and message N syn; NOW in milliseconds, W random words\
\n  deliver N EP NOW               took, old, gap or own and EP for each delta, and message N ack or ack2\
\n  gossipinfo EP                  what the node holds of each endpoint\
\n  digests EP                     endpoint, generation and newest version of each\
\n  ring EP                        token and endpoint of each position\
\n  replicas EP RF TEXT            at most RF endpoints that keep the key TEXT\n\
\n\
A message is lost when it is never delivered, and repeated when it is delivered again. A line that can't be read \
shows `fault 2 BadText`, a refused one its fault, and the script goes on. Status 0; 1 only where memory, a read or a \
write fails.\n\
\n\
Example:\n\
\n  printf 'start 10.0.0.1:7000 9\\nset 10.0.0.1:7000 1 NORMAL\\ngossipinfo 10.0.0.1:7000\\n' | cg sim\n\
\n  started 10.0.0.1:7000 9\
\n  version 2\
\n  /10.0.0.1:7000\
\n    generation:9\
\n    heartbeat:1\
\n    STATUS:2:NORMAL";

/// `audit` in a line.
pub const AUDIT_ABOUT: &str = "Tell whether the journals of nodes are one run of the gossip";

/// The input and the output of `audit`.
pub const AUDIT_HELP: &str =
    "Reads one journal from each file: the life of one node, as a first line \
`life EP GENERATION WINDOW INITIAL MAX THRESHOLD SEEDS CLUSTER` and a line for each thing that it did. Journals of one \
endpoint are its lives, in the order of the files.\n\
Writes the events of all nodes in an order in which each message was sent before it was handled, a line each, \
and then `one run`, with status 0. Where there is no such order: a line `stuck EP GENERATION ITEM` for the next event of each node \
that cannot be done, then `fault 17 Stuck`; where the lives of an endpoint do not rise in generation, `fault 11 NotRising`; \
where a journal can't be read, a fault line; each with status 1.\n\
\n\
A node that writes its journal as it runs leaves one that ends anywhere when it is killed. With --cut, a line counts only \
with its line feed, and a file without one is no life.\n\
\n\
Example:\n\
\n  cg audit a.journal b.journal";

/// The flag of `audit`.
pub const CUT_HELP: &str = "Read each journal up to its last line feed";

/// `serve` in a line.
pub const SERVE_ABOUT: &str = "Run a node over TCP, with an operator at standard input";

/// The input and the output of `serve`.
pub const SERVE_HELP: &str = "Reads the node's settings from a file, a TOML table:\n\
\n  cluster = TEXT           the cluster's name; needed\
\n  listen = ENDPOINT        where it listens, as \"127.0.0.1:7001\": the node's own endpoint; needed\
\n  generation_file = PATH   keeps the node's generation from one life to the next; needed\
\n  journal = PATH           is written at the end; needed\
\n  rounds = N               rounds that it begins, 0 to 1000000; needed\
\n  exchanges = N            connections that it takes, 0 to 1000000; needed\
\n  seeds = [ENDPOINT, ..]   at most 16; none\
\n  interval = N             milliseconds between two rounds, 0 to 60000; 1000\
\n  random = N               the seed of its random words; 0\
\n  window, initial_gap, max_gap, threshold = N\
\n                           how it judges silence; 1000, 2000, 60000, 18421\n\
\n\
Then it keeps a greater generation in the file, listens, and does each line of standard input at once:\n\
\n  gossipinfo               what it holds of each endpoint\
\n  digests                  endpoint, generation and newest version of each\
\n  ring                     token and endpoint of each position\
\n  replicas RF TEXT         at most RF endpoints that keep the key TEXT\
\n  set KEY TEXT             version N; KEY is 1 to 16, TEXT the rest of the line\
\n  remove KEY               version N; the key's text is removed\
\n  quit                     no further line is read\n\
\n\
A set or removal shows `version N unpublished` where no memory was left to publish it. A line that can't be read shows \
`fault 2 BadText`, a refused one its fault, and the next line is read.\n\
\n\
It ends when its rounds are done, its exchanges are taken, and its input has ended or said `quit`; then it writes \
its journal, which `cg audit` reads. A node that is killed writes none. Status 0; 1 after a fault, each told \
by a line: 14 ReadFault where the settings or the generation can't be read or nobody can listen there, 2 BadText where they are \
none, 4 VersionsSpent, 15 WriteFault, 1 OutOfMemory.\n\
\n\
Exchanges that peers begin are answered one at a time. Each has a third of the interval, 100 ms to 2 s, and for its first \
byte a quarter of that, at least 100 ms. What it brings, up to 33.6 MB a message, is kept until the node ends. So let \
only members reach the port.\n\
\n\
Example:\n\
\n  printf 'set 3 x\\ngossipinfo\\nquit\\n' | cg serve node.toml\n\
\n  version 2\
\n  /127.0.0.1:7001\
\n    generation:1700000000\
\n    heartbeat:1\
\n    LOAD:2:x";

/// `agent` in a line.
pub const AGENT_ABOUT: &str =
    "Run a node over TCP until it is stopped, with a journal that a kill leaves whole";

/// The input and the output of `agent`.
pub const AGENT_HELP: &str =
    "Reads the node's settings from a file, a TOML table, with the keys of serve but rounds, \
exchanges and journal, and these:\n\
\n  journals = PATH          a folder that is there; the life's journal is ENDPOINT.GENERATION.journal in it; none is kept\
\n  journal_mb = N           MiB of journal that a life writes, 1 to 1000000; then it goes on without; 1024\
\n  keep = N                 records that stay in memory, 1 to 1000000; 1000\
\n  receivers = N            threads that answer connections, 1 to 8; 2\
\n  stdin = TEXT             ignore; stop: its end stops the node; lines: an operator's, as serve has them, and quit or the \
end stops it; ignore\
\n  http = ENDPOINT          where HTTP shows the node: a page at /, /status, /metrics, /health, /replicas; nowhere\
\n  http_writes = BOOL       true: HTTP may set and remove keys and stop the node; false\n\
\n\
Then it keeps a greater generation in the file, listens, and runs until it is stopped. It writes:\n\
\n  ready EP GENERATION      it listens\
\n  joined EP GENERATION     a member that it had not seen\
\n  restarted EP GENERATION  a member in a new life\
\n  silent EP, alive EP      a member that it no longer hears of, or hears of again\
\n  stopped                  the end\n\
\n\
A line of the journal stands before the message of its event leaves, so a node may be killed at any time, and \
`cg audit --cut` reads what it left. Status 0; 1 after a fault, told by a line as serve has it: also 15 WriteFault where its \
journal can't be written, and 14 ReadFault where no further connection is taken. Standard error says what and where.";
