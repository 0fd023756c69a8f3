//! The profile, as `docs/schema_rules.py` makes it of `docs/profile.schema.json`.

use crate::rule::Member::{self, May, Must};
use crate::rule::Rule;

const LINK: &[Member] = &[
    Must("Usage", Rule::Word(&["Input", "Output"])),
    Must("rRef", Rule::Name),
];

const ANCESTOR: &[Member] = &[Must("JobPartID", Rule::Name), Must("NodeID", Rule::Name)];

const AUDIT1: &[Member] = &[
    Must("Name", Rule::Word(&["Notification"])),
    Must("Text", Rule::Text),
    Must("TimeStamp", Rule::Whole),
];

const AUDIT2: &[Member] = &[
    Must("Name", Rule::Word(&["Spawned"])),
    Must("NewSpawnID", Rule::Name),
    Must("Status", Rule::Name),
    Must("TimeStamp", Rule::Whole),
    Must("jRef", Rule::Name),
    Must("rRefsROCopied", Rule::Names),
    Must("rRefsRWCopied", Rule::Names),
];

const AUDIT3: &[Member] = &[
    Must("MergeID", Rule::Name),
    Must("Name", Rule::Word(&["Merged"])),
    Must("TimeStamp", Rule::Whole),
    Must("jRef", Rule::Name),
    Must("rRefsOverwritten", Rule::Names),
];

const RESOURCE: &[Member] = &[
    May("Attr", Rule::Attributes),
    Must("Class", Rule::Name),
    Must("ID", Rule::Name),
    May("Locked", Rule::Truth(false)),
    Must("Name", Rule::Name),
    May("SpawnIDs", Rule::NoItems),
    May("SpawnStatus", Rule::Word(&["NotSpawned"])),
    Must("Status", Rule::Name),
];

const COPY_TO_CHANGE: &[Member] = &[
    May("Attr", Rule::Attributes),
    Must("Class", Rule::Name),
    Must("ID", Rule::Name),
    May("Locked", Rule::Truth(false)),
    Must("Name", Rule::Name),
    Must("SpawnIDs", Rule::OneSpawnId),
    Must("SpawnStatus", Rule::Word(&["SpawnedRW"])),
    Must("Status", Rule::Name),
];

const COPY_TO_READ: &[Member] = &[
    May("Attr", Rule::Attributes),
    Must("Class", Rule::Name),
    Must("ID", Rule::Name),
    Must("Locked", Rule::Truth(true)),
    Must("Name", Rule::Name),
    Must("SpawnIDs", Rule::OneSpawnId),
    Must("SpawnStatus", Rule::Word(&["SpawnedRO"])),
    Must("Status", Rule::Name),
];

const NODE: &[Member] = &[
    May("Attr", Rule::Attributes),
    May("AuditPool", Rule::List(Definition::Audit)),
    Must("ID", Rule::Name),
    May("JDF", Rule::List(Definition::Node)),
    Must("JobPartID", Rule::Name),
    May("ResourceLinkPool", Rule::List(Definition::Link)),
    May("ResourcePool", Rule::List(Definition::Resource)),
    Must("Status", Rule::NodeStatus),
    Must("Type", Rule::Name),
];

const TICKET: &[Member] = &[
    May("Attr", Rule::Attributes),
    May("AuditPool", Rule::List(Definition::Audit)),
    Must("ID", Rule::Name),
    May("JDF", Rule::List(Definition::Node)),
    Must("JobID", Rule::Name),
    Must("JobPartID", Rule::Name),
    May("ResourceLinkPool", Rule::List(Definition::Link)),
    May("ResourcePool", Rule::List(Definition::Resource)),
    Must("Status", Rule::NodeStatus),
    Must("Type", Rule::Name),
];

const PART: &[Member] = &[
    Must("AncestorPool", Rule::List(Definition::Ancestor)),
    May("Attr", Rule::Attributes),
    May("AuditPool", Rule::List(Definition::Audit)),
    Must("ID", Rule::Name),
    May("JDF", Rule::List(Definition::Node)),
    Must("JobID", Rule::Name),
    Must("JobPartID", Rule::Name),
    May("ResourceLinkPool", Rule::List(Definition::Link)),
    May("ResourcePool", Rule::List(Definition::PartResourcePool)),
    Must("SpawnID", Rule::SpawnId),
    Must("Status", Rule::NodeStatus),
    Must("Type", Rule::Name),
];

const EDIT1: &[Member] = &[
    Must("Edit", Rule::Word(&["SetStatus"])),
    Must("Node", Rule::Name),
    Must("Status", Rule::Name),
];

const EDIT2: &[Member] = &[
    Must("Edit", Rule::Word(&["SetAttr"])),
    Must("Name", Rule::Name),
    Must("Node", Rule::Name),
    Must("Value", Rule::Text),
];

const EDIT3: &[Member] = &[
    Must("Edit", Rule::Word(&["SetResStatus"])),
    Must("Resource", Rule::Name),
    Must("Status", Rule::Name),
];

const EDIT4: &[Member] = &[
    Must("Edit", Rule::Word(&["SetResAttr"])),
    Must("Name", Rule::Name),
    Must("Resource", Rule::Name),
    Must("Value", Rule::Text),
];

const EDIT5: &[Member] = &[
    Must("Edit", Rule::Word(&["Note"])),
    Must("Node", Rule::Name),
    Must("Text", Rule::Text),
];

const EDIT6: &[Member] = &[
    Must("Edit", Rule::Word(&["AddNode"])),
    Must("ID", Rule::Name),
    Must("JobPartID", Rule::Name),
    Must("Node", Rule::Name),
    Must("Status", Rule::Name),
    Must("Type", Rule::Name),
];

const EDIT7: &[Member] = &[
    May("Attr", Rule::Attributes),
    Must("Class", Rule::Name),
    Must("Edit", Rule::Word(&["AddResource"])),
    Must("ID", Rule::Name),
    Must("Name", Rule::Name),
    Must("Node", Rule::Name),
    Must("Status", Rule::Name),
];

const EDIT8: &[Member] = &[
    Must("Edit", Rule::Word(&["AddLink"])),
    Must("Node", Rule::Name),
    Must("Usage", Rule::Word(&["Input", "Output"])),
    Must("rRef", Rule::Name),
];

const MASTER_ORDER1: &[Member] = &[
    Must("Edit", Rule::Object(Definition::Edit)),
    Must("Order", Rule::Word(&["Edit"])),
];

const MASTER_ORDER2: &[Member] = &[
    Must("Node", Rule::Name),
    Must("Order", Rule::Word(&["Spawn"])),
    Must("RW", Rule::Names),
    Must("Worker", Rule::Name),
];

const MASTER_ORDER3: &[Member] = &[
    Must("Order", Rule::Word(&["Resend", "Withdraw"])),
    Must("SpawnID", Rule::SpawnId),
];

const WORKER_ORDER1: &[Member] = &[
    Must("Edit", Rule::Object(Definition::Edit)),
    Must("Order", Rule::Word(&["Edit"])),
    Must("SpawnID", Rule::SpawnId),
];

const WORKER_ORDER2: &[Member] = &[
    Must("Order", Rule::Word(&["Finish"])),
    Must("SpawnID", Rule::SpawnId),
    Must("Status", Rule::Word(&["Completed", "Aborted"])),
];

const WORKER_ORDER3: &[Member] = &[
    Must("Order", Rule::Word(&["Resend"])),
    Must("SpawnID", Rule::SpawnId),
];

const SUBMISSION_QUEUE_SUBMISSION_PARAMS: &[Member] = &[
    Must("QueueEntryID", Rule::SpawnId),
    Must("ReturnJMF", Rule::Begins("jmf:")),
    Must("ReturnURL", Rule::Word(&["cid:jdf"])),
    Must("URL", Rule::Word(&["cid:jdf"])),
];

const SUBMISSION_COMMAND: &[Member] = &[
    Must("ID", Rule::OfSpawn(&["Q."], "")),
    Must(
        "QueueSubmissionParams",
        Rule::Object(Definition::SubmissionQueueSubmissionParams),
    ),
    Must("Type", Rule::Word(&["SubmitQueueEntry"])),
];

const SUBMISSION_JMF: &[Member] = &[
    Must("Command", Rule::Object(Definition::SubmissionCommand)),
    Must("ReceiverID", Rule::Name),
    Must("SenderID", Rule::Name),
    Must("TimeStamp", Rule::Whole),
    Must("Version", Rule::Word(&["1.5"])),
];

const SUBMISSION: &[Member] = &[
    Must("JDF", Rule::Object(Definition::Part)),
    Must("JMF", Rule::Object(Definition::SubmissionJmf)),
];

const RETURN_RETURN_QUEUE_ENTRY_PARAMS: &[Member] = &[
    Must("QueueEntryID", Rule::SpawnId),
    Must("URL", Rule::Word(&["cid:jdf"])),
];

const RETURN_COMMAND: &[Member] = &[
    Must("ID", Rule::OfSpawn(&["R."], "")),
    Must(
        "ReturnQueueEntryParams",
        Rule::Object(Definition::ReturnReturnQueueEntryParams),
    ),
    Must("Type", Rule::Word(&["ReturnQueueEntry"])),
];

const RETURN_JMF: &[Member] = &[
    Must("Command", Rule::Object(Definition::ReturnCommand)),
    Must("ReceiverID", Rule::Name),
    Must("SenderID", Rule::Name),
    Must("TimeStamp", Rule::Whole),
    Must("Version", Rule::Word(&["1.5"])),
];

const RETURN: &[Member] = &[
    Must("JDF", Rule::Object(Definition::Part)),
    Must("JMF", Rule::Object(Definition::ReturnJmf)),
];

const ABORT_ABORT_QUEUE_ENTRY_PARAMS: &[Member] = &[Must("QueueEntryID", Rule::SpawnId)];

const ABORT_COMMAND: &[Member] = &[
    Must(
        "AbortQueueEntryParams",
        Rule::Object(Definition::AbortAbortQueueEntryParams),
    ),
    Must("ID", Rule::OfSpawn(&["A."], "")),
    Must("Type", Rule::Word(&["AbortQueueEntry"])),
];

const ABORT_JMF: &[Member] = &[
    Must("Command", Rule::Object(Definition::AbortCommand)),
    Must("ReceiverID", Rule::Name),
    Must("SenderID", Rule::Name),
    Must("TimeStamp", Rule::Whole),
    Must("Version", Rule::Word(&["1.5"])),
];

const ABORT: &[Member] = &[Must("JMF", Rule::Object(Definition::AbortJmf))];

const RESPONSE_QUEUE_ENTRY: &[Member] = &[
    Must("QueueEntryID", Rule::SpawnId),
    Must("Status", Rule::Word(&["Running", "Completed", "Aborted"])),
];

const RESPONSE_RESPONSE1: &[Member] = &[
    Must("ID", Rule::OfSpawn(&["Q.", "R.", "A."], ".a")),
    Must("QueueEntry", Rule::Object(Definition::ResponseQueueEntry)),
    Must("Reason", Rule::Number(0, 0)),
    Must("ReturnCode", Rule::Number(0, 0)),
    Must(
        "Type",
        Rule::Word(&["SubmitQueueEntry", "ReturnQueueEntry", "AbortQueueEntry"]),
    ),
    Must("refID", Rule::OfSpawn(&["Q.", "R.", "A."], "")),
];

const RESPONSE_RESPONSE2: &[Member] = &[
    Must("ID", Rule::OfSpawn(&["Q.", "R.", "A."], ".a")),
    Must("Reason", Rule::Number(1, 999)),
    Must("ReturnCode", Rule::Number(1, 1)),
    Must(
        "Type",
        Rule::Word(&["SubmitQueueEntry", "ReturnQueueEntry", "AbortQueueEntry"]),
    ),
    Must("refID", Rule::OfSpawn(&["Q.", "R.", "A."], "")),
];

const RESPONSE_JMF: &[Member] = &[
    Must("Response", Rule::Object(Definition::ResponseResponse)),
    Must("ReceiverID", Rule::Name),
    Must("SenderID", Rule::Name),
    Must("TimeStamp", Rule::Whole),
    Must("Version", Rule::Word(&["1.5"])),
];

const RESPONSE: &[Member] = &[Must("JMF", Rule::Object(Definition::ResponseJmf))];

const RECORD: &[Member] = &[
    Must("At", Rule::Whole),
    Must("ID", Rule::SpawnId),
    Must("Node", Rule::Name),
    Must("Phase", Rule::Word(&["Out", "Merged", "Withdrawn"])),
    Must("RO", Rule::List(Definition::Resource)),
    Must("RW", Rule::Names),
    Must("Worker", Rule::Name),
];

const STORED_MASTER: &[Member] = &[
    Must("Name", Rule::Name),
    Must("Spawns", Rule::List(Definition::Record)),
    Must("Ticket", Rule::Object(Definition::Ticket)),
    Must("Workers", Rule::Names),
];

const MASTER_STATE1: &[Member] = &[
    Must("Format", Rule::Number(2, 2)),
    Must("Master", Rule::Object(Definition::StoredMaster)),
];

const RECORD_FIRST: &[Member] = &[
    Must("At", Rule::Whole),
    Must("ID", Rule::SpawnId),
    Must("Node", Rule::Name),
    Must("Phase", Rule::Word(&["Out", "Merged"])),
    Must("RO", Rule::List(Definition::Resource)),
    Must("RW", Rule::Names),
    Must("Worker", Rule::Name),
];

const STORED_MASTER_FIRST: &[Member] = &[
    Must("Name", Rule::Name),
    Must("Spawns", Rule::List(Definition::RecordFirst)),
    Must("Ticket", Rule::Object(Definition::Ticket)),
    Must("Workers", Rule::Names),
];

const MASTER_STATE2: &[Member] = &[
    Must("Format", Rule::Number(1, 1)),
    Must("Master", Rule::Object(Definition::StoredMasterFirst)),
];

const ENTRY1: &[Member] = &[
    Must("At", Rule::Whole),
    Must("ID", Rule::SpawnId),
    Must("Part", Rule::Object(Definition::Part)),
    Must("Phase", Rule::Word(&["Open", "Completed", "Aborted"])),
];

const ENTRY2: &[Member] = &[
    Must("At", Rule::Whole),
    Must("End", Rule::Word(&["Completed", "Aborted"])),
    Must("ID", Rule::SpawnId),
    Must("Phase", Rule::Word(&["Closed"])),
];

const ENTRY3: &[Member] = &[
    Must("At", Rule::Whole),
    Must("ID", Rule::SpawnId),
    Must("Phase", Rule::Word(&["Declined"])),
];

const STORED_WORKER: &[Member] = &[
    Must("Entries", Rule::List(Definition::Entry)),
    Must("Master", Rule::Name),
    Must("Name", Rule::Name),
];

const WORKER_STATE1: &[Member] = &[
    Must("Format", Rule::Number(2, 2)),
    Must("Worker", Rule::Object(Definition::StoredWorker)),
];

const ENTRY_FIRST: &[Member] = &[
    Must("At", Rule::Whole),
    Must("Part", Rule::Object(Definition::Part)),
    Must("Phase", Rule::Word(&["Open", "Completed", "Aborted"])),
];

const STORED_WORKER_FIRST: &[Member] = &[
    Must("Entries", Rule::List(Definition::EntryFirst)),
    Must("Master", Rule::Name),
    Must("Name", Rule::Name),
];

const WORKER_STATE2: &[Member] = &[
    Must("Format", Rule::Number(1, 1)),
    Must("Worker", Rule::Object(Definition::StoredWorkerFirst)),
];

const OPENING1: &[Member] = &[
    Must("Master", Rule::Name),
    Must("Ticket", Rule::Object(Definition::Ticket)),
    Must("Workers", Rule::Names),
];

const OPENING2: &[Member] = &[Must("Master", Rule::Name), Must("Worker", Rule::Name)];

const EDIT_INPUT: &[Member] = &[
    Must("At", Rule::Whole),
    Must("Edits", Rule::List(Definition::Edit)),
    Must("Ticket", Rule::Object(Definition::Ticket)),
];

const EVENT1: &[Member] = &[
    Must("At", Rule::Whole),
    Must("Event", Rule::Word(&["Order"])),
    Must("Order", Rule::Object(Definition::EventOrder)),
    May("Stop", Rule::Word(&["Run", "BeforeSave", "BeforeSend"])),
    Must("To", Rule::Name),
];

const EVENT2: &[Member] = &[
    Must("At", Rule::Whole),
    Must("Deliver", Rule::Whole),
    Must("Event", Rule::Word(&["Deliver"])),
    May("Stop", Rule::Word(&["Run", "BeforeSave", "BeforeSend"])),
];

const EVENT3: &[Member] = &[
    Must("At", Rule::Whole),
    Must("Event", Rule::Word(&["Restart"])),
    May("Stop", Rule::Word(&["Run", "BeforeSave", "BeforeSend"])),
    Must("To", Rule::Name),
];

const SCRIPT: &[Member] = &[
    Must("Events", Rule::List(Definition::Event)),
    Must("Master", Rule::Name),
    Must("Ticket", Rule::Object(Definition::Ticket)),
    Must("Workers", Rule::Names),
];

const LINK_OBJECTS: &[&[Member]] = &[LINK];

const ANCESTOR_OBJECTS: &[&[Member]] = &[ANCESTOR];

const AUDIT_OBJECTS: &[&[Member]] = &[AUDIT1, AUDIT2, AUDIT3];

const RESOURCE_OBJECTS: &[&[Member]] = &[RESOURCE];

const COPY_TO_CHANGE_OBJECTS: &[&[Member]] = &[COPY_TO_CHANGE];

const COPY_TO_READ_OBJECTS: &[&[Member]] = &[COPY_TO_READ];

const NODE_OBJECTS: &[&[Member]] = &[NODE];

const TICKET_OBJECTS: &[&[Member]] = &[TICKET];

const PART_OBJECTS: &[&[Member]] = &[PART];

const PART_RESOURCE_POOL_OBJECTS: &[&[Member]] = &[RESOURCE, COPY_TO_CHANGE, COPY_TO_READ];

const EDIT_OBJECTS: &[&[Member]] = &[EDIT1, EDIT2, EDIT3, EDIT4, EDIT5, EDIT6, EDIT7, EDIT8];

const MASTER_ORDER_OBJECTS: &[&[Member]] = &[MASTER_ORDER1, MASTER_ORDER2, MASTER_ORDER3];

const WORKER_ORDER_OBJECTS: &[&[Member]] = &[WORKER_ORDER1, WORKER_ORDER2, WORKER_ORDER3];

const MESSAGE_OBJECTS: &[&[Member]] = &[SUBMISSION, RETURN, ABORT, RESPONSE];

const SUBMISSION_OBJECTS: &[&[Member]] = &[SUBMISSION];

const SUBMISSION_JMF_OBJECTS: &[&[Member]] = &[SUBMISSION_JMF];

const SUBMISSION_COMMAND_OBJECTS: &[&[Member]] = &[SUBMISSION_COMMAND];

const SUBMISSION_QUEUE_SUBMISSION_PARAMS_OBJECTS: &[&[Member]] = &[
    SUBMISSION_QUEUE_SUBMISSION_PARAMS,
];

const RETURN_OBJECTS: &[&[Member]] = &[RETURN];

const RETURN_JMF_OBJECTS: &[&[Member]] = &[RETURN_JMF];

const RETURN_COMMAND_OBJECTS: &[&[Member]] = &[RETURN_COMMAND];

const RETURN_RETURN_QUEUE_ENTRY_PARAMS_OBJECTS: &[&[Member]] = &[RETURN_RETURN_QUEUE_ENTRY_PARAMS];

const ABORT_OBJECTS: &[&[Member]] = &[ABORT];

const ABORT_JMF_OBJECTS: &[&[Member]] = &[ABORT_JMF];

const ABORT_COMMAND_OBJECTS: &[&[Member]] = &[ABORT_COMMAND];

const ABORT_ABORT_QUEUE_ENTRY_PARAMS_OBJECTS: &[&[Member]] = &[ABORT_ABORT_QUEUE_ENTRY_PARAMS];

const RESPONSE_OBJECTS: &[&[Member]] = &[RESPONSE];

const RESPONSE_JMF_OBJECTS: &[&[Member]] = &[RESPONSE_JMF];

const RESPONSE_RESPONSE_OBJECTS: &[&[Member]] = &[RESPONSE_RESPONSE1, RESPONSE_RESPONSE2];

const RESPONSE_QUEUE_ENTRY_OBJECTS: &[&[Member]] = &[RESPONSE_QUEUE_ENTRY];

const MASTER_STATE_OBJECTS: &[&[Member]] = &[MASTER_STATE1, MASTER_STATE2];

const STORED_MASTER_OBJECTS: &[&[Member]] = &[STORED_MASTER];

const RECORD_OBJECTS: &[&[Member]] = &[RECORD];

const STORED_MASTER_FIRST_OBJECTS: &[&[Member]] = &[STORED_MASTER_FIRST];

const RECORD_FIRST_OBJECTS: &[&[Member]] = &[RECORD_FIRST];

const WORKER_STATE_OBJECTS: &[&[Member]] = &[WORKER_STATE1, WORKER_STATE2];

const STORED_WORKER_OBJECTS: &[&[Member]] = &[STORED_WORKER];

const ENTRY_OBJECTS: &[&[Member]] = &[ENTRY1, ENTRY2, ENTRY3];

const STORED_WORKER_FIRST_OBJECTS: &[&[Member]] = &[STORED_WORKER_FIRST];

const ENTRY_FIRST_OBJECTS: &[&[Member]] = &[ENTRY_FIRST];

const OPENING_OBJECTS: &[&[Member]] = &[OPENING1, OPENING2];

const EDIT_INPUT_OBJECTS: &[&[Member]] = &[EDIT_INPUT];

const SCRIPT_OBJECTS: &[&[Member]] = &[SCRIPT];

const EVENT_OBJECTS: &[&[Member]] = &[EVENT1, EVENT2, EVENT3];

const EVENT_ORDER_OBJECTS: &[&[Member]] = &[
    MASTER_ORDER1,
    MASTER_ORDER2,
    MASTER_ORDER3,
    WORKER_ORDER1,
    WORKER_ORDER2,
    WORKER_ORDER3,
];

/// An object, or one of several, by its name in the schema, or by where it stands.
#[derive(Clone, Copy, PartialEq, Eq)]
pub enum Definition {
    Link,
    Ancestor,
    Audit,
    Resource,
    CopyToChange,
    CopyToRead,
    Node,
    Ticket,
    Part,
    PartResourcePool,
    Edit,
    MasterOrder,
    WorkerOrder,
    Message,
    Submission,
    SubmissionJmf,
    SubmissionCommand,
    SubmissionQueueSubmissionParams,
    Return,
    ReturnJmf,
    ReturnCommand,
    ReturnReturnQueueEntryParams,
    Abort,
    AbortJmf,
    AbortCommand,
    AbortAbortQueueEntryParams,
    Response,
    ResponseJmf,
    ResponseResponse,
    ResponseQueueEntry,
    MasterState,
    StoredMaster,
    Record,
    StoredMasterFirst,
    RecordFirst,
    WorkerState,
    StoredWorker,
    Entry,
    StoredWorkerFirst,
    EntryFirst,
    Opening,
    EditInput,
    Script,
    Event,
    EventOrder,
}

/// The members of each object that a value of a definition may be.
pub(crate) fn objects_of(definition: Definition) -> &'static [&'static [Member]] {
    match definition {
        Definition::Link => LINK_OBJECTS,
        Definition::Ancestor => ANCESTOR_OBJECTS,
        Definition::Audit => AUDIT_OBJECTS,
        Definition::Resource => RESOURCE_OBJECTS,
        Definition::CopyToChange => COPY_TO_CHANGE_OBJECTS,
        Definition::CopyToRead => COPY_TO_READ_OBJECTS,
        Definition::Node => NODE_OBJECTS,
        Definition::Ticket => TICKET_OBJECTS,
        Definition::Part => PART_OBJECTS,
        Definition::PartResourcePool => PART_RESOURCE_POOL_OBJECTS,
        Definition::Edit => EDIT_OBJECTS,
        Definition::MasterOrder => MASTER_ORDER_OBJECTS,
        Definition::WorkerOrder => WORKER_ORDER_OBJECTS,
        Definition::Message => MESSAGE_OBJECTS,
        Definition::Submission => SUBMISSION_OBJECTS,
        Definition::SubmissionJmf => SUBMISSION_JMF_OBJECTS,
        Definition::SubmissionCommand => SUBMISSION_COMMAND_OBJECTS,
        Definition::SubmissionQueueSubmissionParams => SUBMISSION_QUEUE_SUBMISSION_PARAMS_OBJECTS,
        Definition::Return => RETURN_OBJECTS,
        Definition::ReturnJmf => RETURN_JMF_OBJECTS,
        Definition::ReturnCommand => RETURN_COMMAND_OBJECTS,
        Definition::ReturnReturnQueueEntryParams => RETURN_RETURN_QUEUE_ENTRY_PARAMS_OBJECTS,
        Definition::Abort => ABORT_OBJECTS,
        Definition::AbortJmf => ABORT_JMF_OBJECTS,
        Definition::AbortCommand => ABORT_COMMAND_OBJECTS,
        Definition::AbortAbortQueueEntryParams => ABORT_ABORT_QUEUE_ENTRY_PARAMS_OBJECTS,
        Definition::Response => RESPONSE_OBJECTS,
        Definition::ResponseJmf => RESPONSE_JMF_OBJECTS,
        Definition::ResponseResponse => RESPONSE_RESPONSE_OBJECTS,
        Definition::ResponseQueueEntry => RESPONSE_QUEUE_ENTRY_OBJECTS,
        Definition::MasterState => MASTER_STATE_OBJECTS,
        Definition::StoredMaster => STORED_MASTER_OBJECTS,
        Definition::Record => RECORD_OBJECTS,
        Definition::StoredMasterFirst => STORED_MASTER_FIRST_OBJECTS,
        Definition::RecordFirst => RECORD_FIRST_OBJECTS,
        Definition::WorkerState => WORKER_STATE_OBJECTS,
        Definition::StoredWorker => STORED_WORKER_OBJECTS,
        Definition::Entry => ENTRY_OBJECTS,
        Definition::StoredWorkerFirst => STORED_WORKER_FIRST_OBJECTS,
        Definition::EntryFirst => ENTRY_FIRST_OBJECTS,
        Definition::Opening => OPENING_OBJECTS,
        Definition::EditInput => EDIT_INPUT_OBJECTS,
        Definition::Script => SCRIPT_OBJECTS,
        Definition::Event => EVENT_OBJECTS,
        Definition::EventOrder => EVENT_ORDER_OBJECTS,
    }
}
