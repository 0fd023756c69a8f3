//! The rows of the table of refusals, as `docs/refusal_rows.py` makes them of
//! `docs/REFUSALS.md`.

use crate::table::Row;

/// A row for each refusal, by their numbers.
pub(crate) const ROWS: &[Row] = &[
    (
        "1",
        "1 BadId\n\
         When it comes: an id or name is none, or a SpawnID names no spawn\n\
         Leaves: unread\n\
         What to do: correct it (`FORMATS.md`, \"JSON\")\n",
    ),
    (
        "2",
        "2 DuplicateId\n\
         When it comes: an id stands, or would stand, twice\n\
         Leaves: unread, unchanged\n\
         What to do: choose another id\n",
    ),
    (
        "3",
        "3 UnresolvedLink\n\
         When it comes: a link's resource is at home neither in its node nor above\n\
         Leaves: unread, unchanged\n\
         What to do: link one that is, or add it there\n",
    ),
    (
        "4",
        "4 TooDeep\n\
         When it comes: a node stands, or would stand, deeper than 32\n\
         Leaves: unread, unchanged\n\
         What to do: put it higher\n",
    ),
    (
        "5",
        "5 ReservedStatus\n\
         When it comes: a node is to have the Status `Spawned`, or a ticket that is read shows \
            marks\n\
         Leaves: unread, unchanged\n\
         What to do: give another Status; give the ticket without marks\n",
    ),
    (
        "6",
        "6 BadText\n\
         When it comes: a text has more than 1,024 bytes (own)\n\
         Leaves: unread\n\
         What to do: shorten it\n",
    ),
    (
        "7",
        "7 NotATree\n\
         When it comes: rows given to a call aren't a tree in preorder\n\
         Leaves: the call undone\n\
         What to do: mend the depths; JSON never gives 7\n",
    ),
    (
        "10",
        "10 UnknownNode\n\
         When it comes: no node has the id\n\
         Leaves: unchanged\n\
         What to do: look at the ticket: `show`\n",
    ),
    (
        "11",
        "11 UnknownResource\n\
         When it comes: no resource has the id\n\
         Leaves: unchanged\n\
         What to do: look at the ticket: `show`\n",
    ),
    (
        "12",
        "12 NotHeld\n\
         When it comes: the spawn named behind it holds what is to be changed, or some of what \
            is to be spawned\n\
         Leaves: unchanged\n\
         What to do: wait until it is merged, or order its worker\n",
    ),
    (
        "13",
        "13 IsRoot\n\
         When it comes: the root is to be spawned (own)\n\
         Leaves: unchanged\n\
         What to do: spawn a node below it\n",
    ),
    (
        "14",
        "14 NotLinked\n\
         When it comes: `RW` names a resource that isn't linked there from above\n\
         Leaves: unchanged\n\
         What to do: leave it out of `RW`\n",
    ),
    (
        "15",
        "15 UnknownWorker\n\
         When it comes: no worker, or no controller of a script, has the name (own)\n\
         Leaves: unchanged\n\
         What to do: name one that is there\n",
    ),
    (
        "16",
        "16 NotOut\n\
         When it comes: the spawn to send again, or to be given up, isn't out, or a part comes \
            back whose spawn was withdrawn (own)\n\
         Leaves: unchanged, answered\n\
         What to do: nothing: it is merged or withdrawn, or never was\n",
    ),
    (
        "17",
        "17 TooManySpawns\n\
         When it comes: a spawn's number would pass 999,999,999 (own)\n\
         Leaves: unchanged\n\
         What to do: begin another master\n",
    ),
    (
        "18",
        "18 SameName\n\
         When it comes: two controllers are to have one name (own)\n\
         Leaves: unread\n\
         What to do: rename one\n",
    ),
    (
        "20",
        "20 UnknownSpawn\n\
         When it comes: the master has no record of the message's spawn (own)\n\
         Leaves: answered\n\
         What to do: hand the message to its own master\n",
    ),
    (
        "21",
        "21 WrongSender\n\
         When it comes: a message isn't from the worker that has the spawn, or from the worker's \
            master (own)\n\
         Leaves: answered\n\
         What to do: find out who sent it; a worker has a state for each of its masters\n",
    ),
    (
        "22",
        "22 WrongShape\n\
         When it comes: a part that comes back doesn't fit (own)\n\
         Leaves: answered\n\
         What to do: have the worker send what it took: `Resend`\n",
    ),
    (
        "30",
        "30 UnknownEntry\n\
         When it comes: the worker never took the spawn's part, or declined it (own)\n\
         Leaves: unchanged, answered\n\
         What to do: hand it the part first\n",
    ),
    (
        "31",
        "31 NotOpen\n\
         When it comes: the work on the part has ended (own)\n\
         Leaves: unchanged\n\
         What to do: nothing more can be done to it\n",
    ),
    (
        "32",
        "32 ReadOnly\n\
         When it comes: the resource is a copy to read\n\
         Leaves: unchanged\n\
         What to do: have the master change it\n",
    ),
    (
        "33",
        "33 NotInPart\n\
         When it comes: the node or resource isn't in the part\n\
         Leaves: unchanged\n\
         What to do: order who holds it\n",
    ),
    (
        "34",
        "34 NotForWorkers\n\
         When it comes: a worker is to add a node, resource or link (own)\n\
         Leaves: unchanged\n\
         What to do: have the master add it\n",
    ),
    (
        "35",
        "35 NotDone\n\
         When it comes: the work on the part hasn't ended (own)\n\
         Leaves: unchanged, answered\n\
         What to do: `Finish` first\n",
    ),
    (
        "36",
        "36 BadPart\n\
         When it comes: a part can't have come from a ticket\n\
         Leaves: answered\n\
         What to do: have the master `Resend` it\n",
    ),
    (
        "37",
        "37 Acknowledged\n\
         When it comes: the part came back, as its master told, and the worker gave it up (own)\n\
         Leaves: unchanged\n\
         What to do: nothing: the master has it\n",
    ),
    (
        "38",
        "38 Declined\n\
         When it comes: in an answer alone: the worker won't take the spawn's part, since it was \
            to be given up before it came (own)\n\
         Leaves: the worker keeps that it declined it\n\
         What to do: nothing: the master has the spawn back, or will once it takes the answer\n",
    ),
    (
        "40",
        "40 NotJson\n\
         When it comes: the bytes aren't JSON in UTF-8, or are beyond its limits\n\
         Leaves: unread\n\
         What to do: correct them: `check` tells from where on\n",
    ),
    (
        "41",
        "41 NotProfile\n\
         When it comes: a member is missing, unknown or of another kind, or a word isn't the \
            form's\n\
         Leaves: unread\n\
         What to do: `check` tells which; compare with `FORMATS.md`\n",
    ),
    (
        "45",
        "45 WrongMessage\n\
         When it comes: what a message says doesn't go together, or it isn't for this controller \
            (own)\n\
         Leaves: unread, answered\n\
         What to do: compare its IDs, Type and part: `check message`; hand it to its receiver\n",
    ),
    (
        "46",
        "46 WrongVersion\n\
         When it comes: a message's Version isn't `1.5` (own)\n\
         Leaves: unread\n\
         What to do: send JMF 1.5\n",
    ),
    (
        "47",
        "47 BadState\n\
         When it comes: FILE holds what no controller can have come to, or a format that isn't \
            known (own)\n\
         Leaves: FILE as it was; status 4\n\
         What to do: `check state`; see `REFUSALS.md`, \"Older states\"\n",
    ),
    (
        "50",
        "50 BadHead\n\
         When it comes: no head comes within its limits, HTTP/1.1 hasn't one `Host`, or \
            `Content-Length` isn't one field of digits\n\
         Leaves: unreceived\n\
         What to do: compare with `FORMATS.md`, \"HTTP\"\n",
    ),
    (
        "51",
        "51 NotPost\n\
         When it comes: the method isn't `POST`\n\
         Leaves: unreceived\n\
         What to do: post it\n",
    ),
    (
        "52",
        "52 NoLength\n\
         When it comes: there is no `Content-Length`\n\
         Leaves: unreceived\n\
         What to do: tell the length\n",
    ),
    (
        "53",
        "53 TooLarge\n\
         When it comes: standard input has more than 4,194,304 bytes, or a body is to have, or \
            has, more than 1,048,576\n\
         Leaves: unread, unreceived\n\
         What to do: make it smaller; a part that grew: `FORMATS.md`, \"How large a part may \
            be\"\n",
    ),
    (
        "54",
        "54 CutShort\n\
         When it comes: the input ends before its body does\n\
         Leaves: unreceived\n\
         What to do: send all of it\n",
    ),
    (
        "55",
        "55 ReadFailed\n\
         When it comes: a read failed, or 2,000,000 were interrupted or would have blocked, and \
            one more; of what comes over HTTP, also where 2,000,000 were made; or `list` or \
            `show --picture` without N finds that the clock tells no time\n\
         Leaves: nothing done or answered; status 4\n\
         What to do: run it, or send it, again\n",
    ),
    (
        "56",
        "56 WriteFailed\n\
         When it comes: a write of standard output or a connection failed, was interrupted, \
            would have blocked or took no byte\n\
         Leaves: a front of the output; FILE holds the step if there is one; status 4\n\
         What to do: don't repeat an order: `show`, then `Resend`; a message may be sent again\n",
    ),
    (
        "57",
        "57 SaveFailed\n\
         When it comes: the state wasn't saved, or `new` found FILE there\n\
         Leaves: the old state or the new, which in etcd may still come; no message is sent; \
            status 4\n\
         What to do: see which by `show`, mend the cause, run it again\n",
    ),
    (
        "58",
        "58 Stale\n\
         When it comes: a controller's save failed before\n\
         Leaves: unchanged\n\
         What to do: `Kept::reload`; the program never meets it\n",
    ),
    (
        "59",
        "59 LoadFailed\n\
         When it comes: FILE can't be opened, locked or read, as a folder for `list` too; or \
            `serve` finds no whole peers' file as it begins\n\
         Leaves: nothing done; standard input unread, but where FILE went while that was waited \
            for; status 4\n\
         What to do: mend path or rights\n",
    ),
    (
        "60",
        "60 Coding\n\
         When it comes: there is a `Transfer-Encoding` or a `Content-Encoding`\n\
         Leaves: unreceived\n\
         What to do: send the body as it is\n",
    ),
    (
        "61",
        "61 NoConnection\n\
         When it comes: `serve` can't listen, or is given no connections; `send` or `order \
            --send` makes none\n\
         Leaves: nothing is sent, and FILE holds the order's step; status 4\n\
         What to do: mend the address, start the other end, send it again\n",
    ),
    (
        "62",
        "62 OtherName\n\
         When it comes: the state in a file of a folder, or the one that `new` is to begin \
            there, is of a controller of another name than the file's, or of another worker than \
            the folder's\n\
         Leaves: nothing done; `serve` answers with 503; `list` of the folder tells it and lists \
            the others, status 1; of `new` unread, status 3\n\
         What to do: give the file the name of its controller\n",
    ),
    (
        "63",
        "63 Forbidden\n\
         When it comes: a sender may not send here: the peers' file has no URL for it, or the \
            field of `--sender-field` isn't there once with its name, or the request has one \
            field `Origin`, as those of a browser have\n\
         Leaves: nothing done; `serve` answers with 403\n\
         What to do: have the sender put into the peers' file, or send under its own name, and \
            not from a page\n",
    ),
    (
        "90",
        "90 Memory\n\
         When it comes: memory ran out\n\
         Leaves: as it was, but see `REFUSALS.md`, \"90\"; status 1\n\
         What to do: free some, run it again\n",
    ),
];
