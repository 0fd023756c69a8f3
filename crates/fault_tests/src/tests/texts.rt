//! States of press, whose master is mis, and messages to it.

/// A worker that has taken nothing yet.
pub const NO_ENTRY: &str = r#"{"Format":2,"Worker":{"Entries":[],"Master":"mis","Name":"press"}}"#;

/// The worker that has taken the part of S1 at 110.
pub const OPEN_ENTRY: &str =
    r#"{"Format":2,"Worker":{"Entries":[{"At":110,"ID":"S1","Part":{"AncestorPool":[{"JobPartID":"p0","NodeID":"n0"}],"Attr":{},"AuditPool":[],"ID":"n1","JDF":[],"JobID":"J1","JobPartID":"p1","ResourceLinkPool":[{"Usage":"Input","rRef":"r1"},{"Usage":"Output","rRef":"r2"}],"ResourcePool":[{"Attr":{},"Class":"Quantity","ID":"r2","Locked":false,"Name":"Component","SpawnIDs":["S1"],"SpawnStatus":"SpawnedRW","Status":"Unavailable"},{"Attr":{},"Class":"Consumable","ID":"r1","Locked":true,"Name":"Media","SpawnIDs":["S1"],"SpawnStatus":"SpawnedRO","Status":"Available"}],"SpawnID":"S1","Status":"Waiting","Type":"ConventionalPrinting"},"Phase":"Open"}],"Master":"mis","Name":"press"}}"#;

/// The worker whose work on the part of S1 ended at 130, and which gave it up; and which declined
/// S2 at 150.
pub const CLOSED_AND_DECLINED: &str =
    r#"{"Format":2,"Worker":{"Entries":[{"At":130,"End":"Completed","ID":"S1","Phase":"Closed"},{"At":150,"ID":"S2","Phase":"Declined"}],"Master":"mis","Name":"press"}}"#;

/// The part of S1 goes out to the worker.
pub const SUBMIT: &str =
    r#"{"JDF":{"AncestorPool":[{"JobPartID":"p0","NodeID":"n0"}],"Attr":{},"AuditPool":[],"ID":"n1","JDF":[],"JobID":"J1","JobPartID":"p1","ResourceLinkPool":[{"Usage":"Input","rRef":"r1"},{"Usage":"Output","rRef":"r2"}],"ResourcePool":[{"Attr":{},"Class":"Quantity","ID":"r2","Locked":false,"Name":"Component","SpawnIDs":["S1"],"SpawnStatus":"SpawnedRW","Status":"Unavailable"},{"Attr":{},"Class":"Consumable","ID":"r1","Locked":true,"Name":"Media","SpawnIDs":["S1"],"SpawnStatus":"SpawnedRO","Status":"Available"}],"SpawnID":"S1","Status":"Waiting","Type":"ConventionalPrinting"},"JMF":{"Command":{"ID":"Q.S1","QueueSubmissionParams":{"QueueEntryID":"S1","ReturnJMF":"jmf:mis","ReturnURL":"cid:jdf","URL":"cid:jdf"},"Type":"SubmitQueueEntry"},"ReceiverID":"press","SenderID":"mis","TimeStamp":100,"Version":"1.5"}}"#;

/// The part of S1 that came back was taken.
pub const RETURN_TAKEN: &str =
    r#"{"JMF":{"ReceiverID":"press","Response":{"ID":"R.S1.a","QueueEntry":{"QueueEntryID":"S1","Status":"Completed"},"Reason":0,"ReturnCode":0,"Type":"ReturnQueueEntry","refID":"R.S1"},"SenderID":"mis","TimeStamp":135,"Version":"1.5"}}"#;

/// The worker is to give S2 up.
pub const ABORT: &str =
    r#"{"JMF":{"Command":{"AbortQueueEntryParams":{"QueueEntryID":"S2"},"ID":"A.S2","Type":"AbortQueueEntry"},"ReceiverID":"press","SenderID":"mis","TimeStamp":145,"Version":"1.5"}}"#;
