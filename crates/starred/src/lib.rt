// Document 01's starred cases, one list and one claim: specs/Starred.antt. No code stands here.

#![tactic(auto)]
